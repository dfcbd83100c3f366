// Writing a PDU from the words that the C interface has for it.
#![tactic(auto)]

ghost use Rattle.std.specs.Prelude.{◌≡◌, false, ◌+◌, ◌≤◌, length, take};
ghost use Rattle.base_layout.specs.Layout.{datagram_bound};
ghost use Rattle.base_lists.specs.Seq.{put};
ghost use Rattle.codec_encoding.specs.Write.{items_octets, octets_of, FitItems};
ghost use Rattle.codec_said.specs.Said.{kind_said, items_said, pdu_said};
ghost use Rattle.codec_verdict.specs.Judge.{Writable};
ghost use Rattle.codec_writing.specs.Writing.{fault_number, plan_of, answer_of, done, written};

use base_numbers::{Malformed, Refusal};
use base_tids::SendTid;
use codec_pdu::Kind;

// Why no PDU was written.
#[derive(Clone, Copy)]
pub enum Fault {
    Malformed(Malformed),
    Refused(Refusal),
}

impl From<Fault> for u64 {
    ghost from_gives = { λ it number. number ≡ fault_number it };

    fn from(it: Fault) -> u64 {
        match it {
            Fault::Malformed(d) => u64::from(d),
            Fault::Refused(r) => u64::from(r),
        }
    }
}

// The kind of the PDU to be written, with its parts in `bytes` octets and room for `room`; or why it isn't.
#[tactic(auto, unfolding(crate::specs::Writing::plan_of, codec_pdu::specs::Pdu::blank_pdu))]
fn planned_kind(fields: &[u64], bytes: usize, room: usize) -> Kind
    ensures { result ≡ (plan_of fields.now bytes room).kind }
{
    if fields.len() < 88 || room < base_layout::DATAGRAM_BOUND {
        return Kind::Refused(Refusal::WrongSize);
    }
    codec_verdict::judged_kind(fields, bytes)
}

// Stores the first n items that the words say from `at` on, the last with CON clear; the place after them.
fn put_items(out: &mut [u8], at: usize, src: &[u8], words: &[u64], n: usize) -> usize
    requires in_bounds { (88 ≤ length words.now) × (n ≤ 16) }
    requires fit_items { FitItems src.now (take n (items_said words.now)) }
    requires words_in_bounds { at + length (items_octets src.now false (take n (items_said words.now))) ≤ length out.old }
    ensures { (result ≡ at + length (items_octets src.now false (take n (items_said words.now)))) × (out.new ≡ put out.old at (items_octets src.now false (take n (items_said words.now)))) }
{
    let mut next = at;
    for k in 0..n {
        let it = codec_said::item_said(words, k);
        next = codec_encoding::put_item(&mut *out, next, src, it, k + 1 < n);
    }
    next
}

// Writes the PDU of this kind that the words say; its length.
fn put_said(out: &mut [u8], src: &[u8], words: &[u64], kind: Kind) -> usize
    requires in_bounds { (88 ≤ length words.now) × (kind ≡ kind_said words.now) }
    requires writable { Writable src.now (pdu_said words.now) × (datagram_bound ≤ length out.old) }
    ensures { (result ≡ length (octets_of src.now (pdu_said words.now))) × (out.new ≡ put out.old 0 (octets_of src.now (pdu_said words.now))) }
{
    let n = words[15] as usize;
    let len = words[17] as usize;
    let tid = SendTid((words[4] % 65536) as u16);
    let items = codec_encoding::put_header(&mut *out, src, 0 < n, kind, tid);
    let user = put_items(&mut *out, items, src, words, n);
    base_lists::copy(out, user, src, words[16] as usize, len);
    user + len
}

// What is given back for a kind and the length of its PDU.
#[tactic(auto, unfolding(crate::specs::Writing::answer_of))]
fn answer(kind: Kind, len: usize) -> Result<usize, Fault>
    ensures { result ≡ answer_of len kind }
{
    match kind {
        Kind::Wrong(d) => Err(Fault::Malformed(d)),
        Kind::Refused(r) => Err(Fault::Refused(r)),
        _ => Ok(len),
    }
}

// Writes the PDU that the words say, with its parts in `bytes`, to the start of the output.
pub fn write(fields: &[u64], bytes: &[u8], out: &mut [u8]) -> Result<usize, Fault>
    ensures { done result out.new ≡ written fields.now bytes.now out.old }
{
    let kind = planned_kind(fields, bytes.len(), out.len());
    if codec_pdu::sound(kind) {
        let len = put_said(out, bytes, fields, kind);
        answer(kind, len)
    } else {
        answer(kind, 0)
    }
}
