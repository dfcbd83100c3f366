// Application IDs, and the entries of a list of ports (TS 24.250, 5.4.2.6.4 and 5.4.2.6.5): one entry, and the recursive walk.
#![tactic(auto)]

ghost use Rattle.std.specs.Prelude.{◌≡◌, ◌+◌, ◌≤◌, length};
ghost use Rattle.rds_lists.specs.Sizes.{nonzero};
ghost use Rattle.rds_entries.specs.Entries.{application_length, entry_at, no_entries, walk_from};

// An entry: two ports, where its Application ID stands, and its serialization format.
#[derive(Clone, Copy)]
pub struct Entry {
    pub source: u8,
    pub destination: u8,
    pub start: usize,
    pub len: usize,
    pub format: u8,
}

// What a walk finds: the place after the entries, and the entries.
#[derive(Clone, Copy)]
pub struct Entries {
    pub end: usize,
    pub list: [Entry; 15],
}

// The length of the Application ID that s begins with; none where it is cut short.
#[tactic(auto, unfolding(crate::specs::Entries::application_length))]
pub fn application_length(s: &[u8]) -> Option<usize>
    ensures found { result ≡ nonzero (application_length s.now) }
    ensures inside { (application_length s.now ≤ length s.now) × (application_length s.now ≤ 272) }
{
    let n = 17 + usize::from(*s.get(16)?);
    if n <= s.len() { Some(n) } else { None }
}

// The entry that s begins with and its length, its place in the frame being `at`; with `formats` it ends with a serialization format. None where it is cut short.
#[tactic(auto, using(rds_lists::proofs::ListFacts::rest), unfolding(crate::specs::Entries::entry_at))]
fn entry_at(s: &[u8], at: usize, formats: bool) -> Option<(Entry, usize)>
    requires { at + length s.now ≤ 1523 }
    ensures { result ≡ entry_at s.now at formats }
{
    let p = *s.first()?;
    let len = application_length(&s[1..])?;
    let size = 1 + len;
    let format = if formats { *s.get(size)? % 8 } else { 0 };
    let entry = Entry {
        source: p / 16,
        destination: p % 16,
        start: at + 1,
        len,
        format,
    };
    Some((entry, size + usize::from(formats)))
}

// A list without entries.
pub fn none() -> [Entry; 15]
    ensures { result ≡ no_entries }
{
    [Entry {
        source: 0,
        destination: 0,
        start: 0,
        len: 0,
        format: 0,
    }; 15]
}

// The entries from s on, of which `left` are still to come after the first k, which are in `read`; none where one is cut short.
#[tactic(auto, using(crate::proofs::Inside::entry_inside, rds_lists::proofs::ListFacts::rest, crate::proofs::WalkSteps::walk_none, crate::proofs::WalkSteps::walk_more))]
pub fn walk(
    s: &[u8],
    at: usize,
    formats: bool,
    left: usize,
    k: usize,
    read: [Entry; 15],
) -> Option<Entries>
    requires { (left + k ≤ 15) × (at + length s.now ≤ 1523) }
    ensures { result ≡ walk_from left k formats at s.now read }
{
    if left == 0 {
        return Some(Entries {
            end: at,
            list: read,
        });
    }
    let (entry, size) = entry_at(s, at, formats)?;
    let mut list = read;
    list[k] = entry;
    walk(&s[size..], at + size, formats, left - 1, k + 1, list)
}
