// Information items of a PDU (WAP-224, 8.4): one item, and the recursive walk.
#![tactic(auto)]

ghost use Rattle.std.specs.Prelude.{◌≡◌, ◌≤◌, ◌<◌, length};
ghost use Rattle.codec_items.specs.Items.{item_of, item_at};
ghost use Rattle.codec_items.specs.Info.{sought_by};
ghost use Rattle.codec_items.specs.Found.{end_from, place_from, info_in, unknown_in};

use base_numbers::Malformed;

// An item as it lies in its octets: identity, long form or short, and where its data stands.
#[derive(Clone, Copy)]
pub struct Item {
    pub identity: u8,
    pub long: bool,
    pub start: usize,
    pub len: usize,
}

// What stands at a place: a whole item, its CON bit and the place after it.
#[derive(Clone, Copy)]
pub struct Got {
    pub item: Item,
    pub con: bool,
    pub next: usize,
}

// Place and length of the data of an Info item; 0 and 0 where there is none.
#[derive(Clone, Copy)]
pub struct Info {
    pub start: usize,
    pub len: usize,
}

// Identity, and place of the first octet, of an item that isn't known; 0 and 0 where there is none.
#[derive(Clone, Copy)]
pub struct Unknown {
    pub identity: u8,
    pub place: usize,
}

// What is sought among the items: the first Info item, or the first that isn't known.
#[derive(Clone, Copy)]
pub enum Sought {
    InfoItem,
    UnknownItem,
}

// The item with first octet h whose len octets of data start at b, unless it is cut.
fn item_of(s: &[u8], h: u8, long: bool, b: usize, len: u8) -> Option<Got>
    requires { b ≤ length s.now }
    ensures { result ≡ item_of s.now h long b len }
{
    let len = usize::from(len);
    if len <= s.len() - b {
        Some(Got {
            item: Item {
                identity: h / 8 % 16,
                long,
                start: b,
                len,
            },
            con: 128 <= h,
            next: b + len,
        })
    } else {
        None
    }
}

// What stands at a place, unless it is cut.
pub fn item_at(s: &[u8], at: usize) -> Option<Got>
    ensures { result ≡ item_at s.now at }
{
    let h = *s.get(at)?;
    let b = at + 1;
    if h / 4 % 2 == 0 {
        return item_of(s, h, false, b, h % 4);
    }
    let len = *s.get(b)?;
    item_of(s, h, true, b + 1, len)
}

// The place after the items from `at` on, of which `left` are still permitted; D3 where one is cut, D4 where one more follows.
#[tactic(auto, using(crate::proofs::WalkSteps::end_none, crate::proofs::WalkSteps::end_more))]
pub fn end_from(s: &[u8], at: usize, left: usize) -> Result<usize, Malformed>
    requires { 1 ≤ left }
    ensures { result ≡ end_from left s.now at }
{
    let mut next = at;
    for _ in 0..left {
        let got = item_at(s, next).ok_or(Malformed::D3)?;
        if !got.con {
            return Ok(got.next);
        }
        next = got.next;
    }
    Err(Malformed::D4)
}

// Whether an item of this identity is sought: 1 is Info; 8.4 knows 0 to 5.
fn is_sought(sought: Sought, identity: u8) -> bool
    ensures { result ≡ sought_by sought identity }
{
    match sought {
        Sought::InfoItem => identity == 1,
        Sought::UnknownItem => 6 <= identity,
    }
}

// The place of the first item sought among the items from `at` on, `most` at most.
#[tactic(auto, using(crate::proofs::WalkSteps::place_none, crate::proofs::WalkSteps::place_more))]
pub fn place_from(s: &[u8], at: usize, most: usize, sought: Sought) -> Option<usize>
    requires { 1 ≤ most }
    ensures { result ≡ place_from sought most s.now at }
{
    let mut next = at;
    for _ in 0..most {
        let got = item_at(s, next)?;
        if is_sought(sought, got.item.identity) {
            return Some(next);
        }
        if !got.con {
            return None;
        }
        next = got.next;
    }
    None
}

// The data of the item at a place.
pub fn info_in(s: &[u8], place: Option<usize>) -> Info
    ensures { result ≡ info_in s.now place }
{
    match place.and_then(|at| item_at(s, at)) {
        Some(got) => Info {
            start: got.item.start,
            len: got.item.len,
        },
        None => Info { start: 0, len: 0 },
    }
}

// The identity of the item at a place, and that place.
pub fn unknown_in(s: &[u8], place: Option<usize>) -> Unknown
    ensures { result ≡ unknown_in s.now place }
{
    let none = Unknown {
        identity: 0,
        place: 0,
    };
    let Some(place) = place else { return none };
    match item_at(s, place) {
        Some(got) => Unknown {
            identity: got.item.identity,
            place,
        },
        None => none,
    }
}
