// Separating concatenated PDUs (WAP-224, 8.5).
#![tactic(auto)]

ghost use Rattle.std.specs.Prelude.{◌≡◌, ◌+◌, ◌≤◌, ◌<◌, length};
ghost use Rattle.base_layout.specs.Layout.{datagram_bound};
ghost use Rattle.codec_pdu.specs.Brief.{brief_of};
ghost use Rattle.codec_separation.specs.Separate.{part_of, part_at, parts_from, parts_of, answer_at, pdu_at};
ghost use Rattle.codec_separation.specs.Counting.{counted};

use base_numbers::Refusal;
use codec_pdu::{Brief, Kind};

// A part of a datagram: where it begins, and its length.
#[derive(Clone, Copy)]
pub struct Part {
    pub start: usize,
    pub len: usize,
}

// How many parts a datagram has, or those passed so far; and the k-th of them, an empty one where there is none.
#[derive(Clone, Copy)]
pub struct Parts {
    pub count: usize,
    pub part: Part,
}

// The part of len octets from start, unless there are fewer or it has none.
#[tactic(auto, unfolding(crate::specs::Separate::part_of))]
fn part_of(d: &[u8], start: usize, len: usize) -> Option<Part>
    requires { start ≤ length d.now }
    ensures { result ≡ part_of d.now start len }
{
    if len == 0 {
        return None;
    }
    if len <= d.len() - start {
        Some(Part { start, len })
    } else {
        None
    }
}

// The length at `at`, in either form, and the part after it.
#[tactic(auto, unfolding(crate::specs::Separate::part_at))]
fn part_at(d: &[u8], at: usize) -> Option<Part>
    requires { at < length d.now }
    ensures { result ≡ part_at d.now at }
{
    let h = d[at];
    let b = at + 1;
    if h < 128 {
        return part_of(d, b, usize::from(h));
    }
    let low = *d.get(b)?;
    part_of(d, b + 1, usize::from(h % 128) * 256 + usize::from(low))
}

// Counts one part more in.
#[tactic(auto, unfolding(crate::specs::Counting::counted))]
fn count_in(seen: Parts, k: usize, part: Part) -> Parts
    requires { seen.count < datagram_bound }
    ensures { result ≡ counted seen k part }
{
    Parts {
        count: seen.count + 1,
        part: if seen.count == k { part } else { seen.part },
    }
}

// The k-th part of a datagram of octet 0, lengths and PDUs.
#[tactic(auto, using(crate::proofs::Passed::passed_none, crate::proofs::Passed::passed_more))]
fn walk(d: &[u8], k: usize) -> Result<Parts, Refusal>
    requires { (1 ≤ length d.now) × (length d.now ≤ datagram_bound) }
    ensures { result ≡ answer_at (parts_from (length d.now) d.now 1) k }
{
    let mut seen = Parts {
        count: 0,
        part: Part { start: 0, len: 0 },
    };
    let mut at = 1;
    // A while: how far a turn goes is told by the length that it meets.
    while at < d.len() {
        let part = part_at(d, at).ok_or(Refusal::WrongLength)?;
        seen = count_in(seen, k, part);
        at = part.start + part.len;
    }
    Ok(seen)
}

// The k-th part of a datagram (0 is the first), which is judged whole before any part is given.
#[tactic(auto, unfolding(crate::specs::Separate::parts_of))]
pub fn separate(d: &[u8], k: u64) -> Result<Parts, Refusal>
    ensures { result ≡ answer_at (parts_of d.now) k }
{
    if d.is_empty() || base_layout::DATAGRAM_BOUND < d.len() {
        return Err(Refusal::WrongLength);
    }
    if d[0] == 0 {
        if d.len() == 1 {
            return Err(Refusal::WrongLength);
        }
        return walk(d, k as usize);
    }
    let len = if k == 0 { d.len() } else { 0 };
    Ok(Parts {
        count: 1,
        part: Part { start: 0, len },
    })
}

// What the engine takes of the PDU that the k-th part holds: the reader is handed that part of the datagram, an empty one where there is none.
#[tactic(auto, using(crate::proofs::Ordered::answer_inside), unfolding(crate::specs::Separate::pdu_at))]
pub fn read_part(d: &[u8], k: u64) -> Brief
    ensures { result ≡ brief_of (pdu_at d.now (answer_at (parts_of d.now) k)) }
{
    match separate(d, k) {
        Err(r) => codec_pdu::blank_brief(Kind::Refused(r)),
        Ok(Parts { part, .. }) => codec_reading::brief(&d[part.start..part.start + part.len]),
    }
}
