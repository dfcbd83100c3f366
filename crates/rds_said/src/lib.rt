// The frame that the 100 words of the C interface say, its values cut to their places.
#![tactic(auto)]

ghost use Rattle.std.specs.Prelude.{◌≡◌, ◌%◌, ◌≤◌, ◌<◌, length};
ghost use Rattle.rds_said.specs.Said.{kind_said, head_said, format_said, ports_said, asking_said, manage_said, information_said, u_said, body_said, entry_said, list_said, entries_said, frame_said};

use rds_body::{Body, Form};
use rds_entries::Entry;
use rds_frame::{Head, Kind};
use rds_reading::Frame;

// A word cut to the values below 16.
fn four_bits(x: u64) -> u8
    ensures { result ≡ x % 16 }
{
    (x % 16) as u8
}

// A word cut to the values below 8.
fn three_bits(x: u64) -> u8
    ensures { result ≡ x % 8 }
{
    (x % 8) as u8
}

// The kind that words 0 to 10 say.
#[tactic(auto, using(crate::proofs::ByKind::said_i, crate::proofs::ByKind::said_s, crate::proofs::ByKind::said_ui, crate::proofs::ByKind::said_u), unfolding(crate::specs::Said::kind_said))]
fn kind_said(words: &[u64]) -> Option<Kind>
    requires { 100 ≤ length words.now }
    ensures { result ≡ kind_said words.now }
{
    let a = words[4] == 1;
    let nr = three_bits(words[6]);
    let r = three_bits(words[7]);
    match words[0] {
        1 => Some(Kind::I {
            a,
            ns: three_bits(words[5]),
            nr,
            r,
        }),
        2 => Some(Kind::S { a, nr, r }),
        3 => Some(Kind::Ui {
            nu: three_bits(words[8]),
        }),
        4 => rds_frame::u_kind(four_bits(words[9]), words[10] == 1),
        _ => None,
    }
}

// The header that words 0 to 10 say; where it ends they don't.
#[tactic(auto, unfolding(crate::specs::Said::head_said))]
fn head_said(words: &[u64]) -> Option<Head>
    requires { 100 ≤ length words.now }
    ensures { result ≡ head_said words.now }
{
    let kind = kind_said(words)?;
    let ads = words[1] == 1;
    let (source, destination) = if ads {
        (four_bits(words[2]), four_bits(words[3]))
    } else {
        (0, 0)
    };
    Some(Head {
        kind,
        ads,
        source,
        destination,
        end: 0,
    })
}

// A serialization format, where there is one.
#[tactic(auto, unfolding(crate::specs::Said::format_said))]
fn format_said(x: u64, there: bool) -> u8
    ensures { result ≡ format_said x there }
{
    if there { three_bits(x) } else { 0 }
}

// A bitmap of ports, where there is one.
#[tactic(auto, unfolding(crate::specs::Said::ports_said))]
fn ports_said(x: u64, there: bool) -> Option<u16>
    ensures { result ≡ ports_said x there }
{
    let ports = (x % 65536 / 2 * 2) as u16;
    there.then_some(ports)
}

// The command Reserve or Release that words 15 to 19 say.
#[tactic(auto, unfolding(crate::specs::Said::asking_said))]
fn asking_said(words: &[u64], action: u8) -> Body
    requires { 100 ≤ length words.now }
    ensures { result ≡ asking_said words.now action }
{
    Body::Asking {
        action,
        source: four_bits(words[15]),
        destination: four_bits(words[16]),
        start: words[17] as usize,
        len: words[18] as usize,
        format: format_said(words[19], action == 5),
    }
}

// The body of MANAGE_PORT that words 13 to 22 say.
#[tactic(auto, unfolding(crate::specs::Said::manage_said))]
fn manage_said(words: &[u64], response: bool) -> Option<Body>
    requires { 100 ≤ length words.now }
    ensures { result ≡ manage_said words.now response }
{
    let action = four_bits(words[13]);
    let ports = ports_said(words[21], words[20] == 1);
    Some(match rds_body::form_of(action, response)? {
        Form::Asking => asking_said(words, action),
        Form::Answer => Body::Answer {
            action,
            format: format_said(words[19], action == 5),
            status: (words[14] % 4) as u8,
        },
        Form::Query => Body::Query { action, ports },
        Form::List => Body::List {
            action,
            ports,
            count: four_bits(words[22]),
        },
    })
}

// The information that words 11 and 12 say.
fn information_said(words: &[u64]) -> Body
    requires { 100 ≤ length words.now }
    ensures { result ≡ information_said words.now }
{
    Body::Information {
        start: words[11] as usize,
        len: words[12] as usize,
    }
}

// The body of a U frame; that of MANAGE_PORT has no ports in the header.
#[tactic(auto, unfolding(crate::specs::Said::u_said))]
fn u_said(words: &[u64], m: u8, response: bool, ads: bool) -> Option<Body>
    requires { 100 ≤ length words.now }
    ensures { result ≡ u_said words.now m response ads }
{
    match m {
        1 | 4 => Some(Body::Empty),
        10 if ads => None,
        10 => manage_said(words, response),
        _ => Some(information_said(words)),
    }
}

// The body that words 11 to 22 say, by the kind.
#[tactic(auto, unfolding(crate::specs::Said::body_said))]
fn body_said(words: &[u64], kind: Kind, ads: bool) -> Option<Body>
    requires { 100 ≤ length words.now }
    ensures { result ≡ body_said words.now ads kind }
{
    match kind {
        Kind::I { .. } | Kind::Ui { .. } => Some(information_said(words)),
        Kind::S { .. } => Some(Body::Empty),
        Kind::U { m, response } => u_said(words, m, response, ads),
    }
}

// The entry k that its five words say, of `count` entries.
#[tactic(auto, unfolding(crate::specs::Said::entry_said))]
fn entry_said(words: &[u64], k: usize, count: usize, formats: bool) -> Entry
    requires { (100 ≤ length words.now) × (k < 15) }
    ensures { result ≡ entry_said words.now formats count k }
{
    if count <= k {
        return Entry {
            source: 0,
            destination: 0,
            start: 0,
            len: 0,
            format: 0,
        };
    }
    let at = 24 + 5 * k;
    Entry {
        source: four_bits(words[at]),
        destination: four_bits(words[at + 1]),
        start: words[at + 2] as usize,
        len: words[at + 3] as usize,
        format: format_said(words[at + 4], formats),
    }
}

// All 15 places of `count` entries.
fn list_said(words: &[u64], count: usize, formats: bool) -> [Entry; 15]
    requires { 100 ≤ length words.now }
    ensures { result ≡ list_said words.now formats count }
{
    let mut list = rds_entries::none();
    for k in 0..15 {
        list[k] = entry_said(words, k, count, formats);
    }
    list
}

// The entries of a body: only a list has any.
#[tactic(auto, unfolding(crate::specs::Said::entries_said))]
fn entries_said(words: &[u64], body: Body) -> [Entry; 15]
    requires { 100 ≤ length words.now }
    ensures { result ≡ entries_said words.now body }
{
    match body {
        Body::List { action, count, .. } => { list_said(words, usize::from(count), 5 < action) }
        _ => list_said(words, 0, false),
    }
}

// The frame that words say, too wide values cut to their places; none where no kind and no body is said.
#[tactic(auto, unfolding(crate::specs::Said::frame_said))]
pub fn said(words: &[u64]) -> Option<Frame>
    requires { 100 ≤ length words.now }
    ensures { result ≡ frame_said words.now }
{
    let head = head_said(words)?;
    let body = body_said(words, head.kind, head.ads)?;
    let list = entries_said(words, body);
    Some(Frame { head, body, list })
}
