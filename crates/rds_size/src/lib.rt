// How long the body of a frame to be written is, its parts in lent octets; over 1,520 where no frame has such a body.
#![tactic(auto)]

ghost use Rattle.std.specs.Prelude.{◌≡◌, ◌≤◌};
ghost use Rattle.rds_size.specs.Size.{inside, is_application, information_size, asking_size, entry_size, entries_size, list_size, body_size};

use rds_body::Body;
use rds_entries::Entry;

// One over N201: the size of what no frame has.
const NONE: usize = 1521;

// Whether len octets from start on lie within n.
#[tactic(auto, unfolding(crate::specs::Size::inside))]
fn lies_inside(n: usize, start: usize, len: usize) -> bool
    ensures { result ≡ inside n start len }
{
    start <= n && len <= n - start
}

// Whether len octets from start on are an Application ID.
#[tactic(auto, using(crate::proofs::SizeTests::inside_ends), unfolding(crate::specs::Size::is_application))]
fn is_application(bytes: &[u8], start: usize, len: usize) -> bool
    ensures { result ≡ is_application bytes.now start len }
{
    0 < len
        && len <= 272
        && lies_inside(bytes.len(), start, len)
        && rds_entries::application_length(&bytes[start..start + len]) == Some(len)
}

// The size of information; with `items` it is that of SET_PARAMETERS.
#[tactic(auto, using(crate::proofs::SizeTests::inside_ends), unfolding(crate::specs::Size::information_size))]
fn information_size(bytes: &[u8], start: usize, len: usize, items: bool) -> usize
    ensures { (result ≡ information_size bytes.now start len items) × (result ≤ 1521) }
{
    let fits = len <= 1520
        && lies_inside(bytes.len(), start, len)
        && (!items || rds_parameters::all_items(&bytes[start..start + len], len));
    if fits { len } else { NONE }
}

// The size of the command Reserve or Release.
#[tactic(auto, using(crate::proofs::SizeTests::application_short), unfolding(crate::specs::Size::asking_size))]
fn asking_size(bytes: &[u8], action: u8, start: usize, len: usize) -> usize
    ensures { (result ≡ asking_size bytes.now action start len) × (result ≤ 1521) }
{
    if is_application(bytes, start, len) {
        2 + len + usize::from(action == 5)
    } else {
        NONE
    }
}

// The size of an entry of a list.
#[tactic(auto, using(crate::proofs::SizeTests::application_short), unfolding(crate::specs::Size::entry_size))]
fn entry_size(bytes: &[u8], e: Entry, formats: bool) -> usize
    ensures { (result ≡ entry_size bytes.now formats e) × (result ≤ 1521) }
{
    if is_application(bytes, e.start, e.len) {
        1 + e.len + usize::from(formats)
    } else {
        NONE
    }
}

// The size of the first `count` entries.
fn entries_size(bytes: &[u8], list: [Entry; 15], formats: bool, count: usize) -> usize
    requires { count ≤ 15 }
    ensures { (result ≡ entries_size bytes.now formats list count) × (result ≤ 22815) }
{
    let mut sum = 0;
    for k in 0..count {
        sum += entry_size(bytes, list[k], formats);
    }
    sum
}

// The size of a list.
#[tactic(auto, unfolding(crate::specs::Size::list_size))]
fn list_size(bytes: &[u8], list: [Entry; 15], action: u8, some: bool, count: u8) -> usize
    ensures { (result ≡ list_size bytes.now list action some count) × (result ≤ 22818) }
{
    let entries = entries_size(bytes, list, 5 < action, usize::from(count % 16));
    1 + entries + 2 * usize::from(some)
}

// The size of a body; with `items` its information is that of SET_PARAMETERS.
#[tactic(auto, unfolding(crate::specs::Size::body_size))]
pub fn body_size(bytes: &[u8], body: Body, list: [Entry; 15], items: bool) -> usize
    ensures { (result ≡ body_size bytes.now list items body) × (result ≤ 22818) }
{
    match body {
        Body::Empty => 0,
        Body::Information { start, len } => information_size(bytes, start, len, items),
        Body::Asking {
            action,
            start,
            len,
            ..
        } => asking_size(bytes, action, start, len),
        Body::Answer { action, .. } => { if action == 5 { 3 } else { 2 } }
        Body::Query { ports, .. } => 1 + 2 * usize::from(ports.is_some()),
        Body::List {
            action,
            ports,
            count,
        } => list_size(bytes, list, action, ports.is_some(), count),
    }
}
