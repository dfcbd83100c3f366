// Joining PDUs to one datagram (WAP-224, 8.5).
#![tactic(auto)]

ghost use Rattle.std.specs.Prelude.{◌≡◌, true, ◌++◌, ◌+◌, ◌≤◌, length};
ghost use Rattle.base_layout.specs.Layout.{datagram_bound};
ghost use Rattle.base_lists.specs.Seq.{put, part};
ghost use Rattle.codec_joining.specs.Join.{length_octets, joined_octets, joinable, planned_answer, joined_answer, output_after};
ghost use Rattle.codec_joining.specs.Fitting.{fits_in};

use base_numbers::Refusal;

// What a datagram has room for after its first octet, which is 0.
const ROOM: usize = base_layout::DATAGRAM_BOUND - 1;

// How many octets a length takes.
#[tactic(auto, unfolding(crate::specs::Join::length_octets))]
fn length_size(n: usize) -> usize
    ensures { result ≡ length (length_octets n) }
{
    if 127 < n { 2 } else { 1 }
}

// Whether a PDU of n octets can be the next one, where `left` octets are lent and the datagram has room for `room`.
#[tactic(auto, unfolding(crate::specs::Fitting::fits_in))]
fn fits(n: usize, left: usize, room: usize) -> bool
    ensures { result ≡ fits_in n left room }
{
    n != 0 && n <= left && n <= room && length_size(n) <= room - n
}

// What joining answers: the length of the datagram. It stops at the first PDU that can't be joined, so no sum passes its bound.
fn joining_plan(bytes: &[u8], lengths: &[u64]) -> Result<usize, Refusal>
    ensures { result ≡ planned_answer bytes.now lengths.now }
{
    if lengths.is_empty() {
        return Err(Refusal::WrongLength);
    }
    let mut left = bytes.len();
    let mut room = ROOM;
    for &length in lengths {
        let n = length as usize;
        if !fits(n, left, room) {
            return Err(Refusal::WrongLength);
        }
        left -= n;
        room = room - n - length_size(n);
    }
    if left == 0 {
        Ok(base_layout::DATAGRAM_BOUND - room)
    } else {
        Err(Refusal::WrongLength)
    }
}

// Stores a length in out from `at` on, and gives the place after it.
#[tactic(auto, unfolding(crate::specs::Join::length_octets, base_lists::specs::Seq::put))]
fn put_length(out: &mut [u8], at: usize, n: usize) -> usize
    requires { (n ≤ datagram_bound) × (at + length (length_octets n) ≤ length out.old) }
    ensures { (result ≡ at + length (length_octets n)) × (out.new ≡ put out.old at (length_octets n)) }
{
    if n <= 127 {
        out[at] = n as u8;
        at + 1
    } else {
        out[at] = (128 + n / 256) as u8;
        out[at + 1] = (n % 256) as u8;
        at + 2
    }
}

// Stores the PDU of n octets of bytes from `from` on, after its length, and gives the place after it.
#[tactic(auto, using(base_lists::proofs::StoresAndParts::put_append))]
fn put_part(out: &mut [u8], at: usize, bytes: &[u8], from: usize, n: usize) -> usize
    requires { (n ≤ datagram_bound) × (from + n ≤ length bytes.now) × (at + length (length_octets n) + n ≤ length out.old) }
    ensures { (result ≡ at + length (length_octets n) + n) × (out.new ≡ put out.old at (length_octets n ++ part bytes.now from n)) }
{
    let next = put_length(&mut *out, at, n);
    base_lists::copy(out, next, bytes, from, n);
    next + n
}

// Stores the joined datagram at the start of out.
fn write(bytes: &[u8], lengths: &[u64], out: &mut [u8])
    requires { (joinable bytes.now lengths.now ≡ true) × (datagram_bound ≤ length out.old) }
    ensures { out.new ≡ put out.old 0 (joined_octets bytes.now lengths.now) }
{
    out[0] = 0;
    let mut at = 1;
    let mut from = 0;
    for &length in lengths {
        let n = length as usize;
        at = put_part(&mut *out, at, bytes, from, n);
        from += n;
    }
}

// The PDUs that bytes holds, of these lengths, as one datagram at the start of out.
#[tactic(auto, using(crate::proofs::Answers::too_small, crate::proofs::Answers::large_enough, crate::proofs::Answers::accepted), unfolding(crate::specs::Join::output_after))]
pub fn join(bytes: &[u8], lengths: &[u64], out: &mut [u8]) -> Result<usize, Refusal>
    ensures { (result ≡ joined_answer bytes.now lengths.now out.old) × (out.new ≡ output_after bytes.now lengths.now out.old) }
{
    if out.len() < base_layout::DATAGRAM_BOUND {
        return Err(Refusal::WrongSize);
    }
    let n = joining_plan(bytes, lengths)?;
    write(bytes, lengths, out);
    Ok(n)
}
