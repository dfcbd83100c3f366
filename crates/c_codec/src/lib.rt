// The C interface's calls of the codec and the fresh table: words in and words out.
#![tactic(auto)]

ghost use Rattle.std.specs.Prelude.{◌≡◌, ◌≤◌, length};
ghost use Rattle.base_layout.specs.Layout.{answer_size};
ghost use Rattle.base_lists.specs.Seq.{put};
ghost use Rattle.table_fresh.specs.Fresh.{fresh_answer, fresh_number, table_after_fresh};
ghost use Rattle.c_codec.specs.Calls.{kind_number, read_number_is, fields_after, write_number, write_output, write_answer, separate_number, part_after, join_number, join_output, join_answer, length_answer};

use base_layout::ANSWER_SIZE;
use base_numbers::Refusal;
use codec_pdu::Kind;
use codec_separation::Parts;

const HALF: usize = ANSWER_SIZE / 2;

// Makes a table fresh.
pub fn make_fresh(table: &mut [u8], settings: &[u64], first_tid: u64) -> u64
    ensures { (result ≡ fresh_number (fresh_answer (length table.old) settings.now first_tid)) × (table.new ≡ table_after_fresh (fresh_answer (length table.old) settings.now first_tid) table.old settings.now first_tid) }
{
    match table_fresh::make_fresh(table, settings, first_tid) {
        Ok(()) => 0,
        Err(r) => u64::from(r),
    }
}

// The result of a call that read a PDU of this kind.
fn number_of(kind: Kind) -> u64
    ensures { result ≡ kind_number kind }
{
    match kind {
        Kind::Wrong(d) => u64::from(d),
        Kind::Refused(r) => u64::from(r),
        _ => 0,
    }
}

// Reads a PDU into 88 words.
#[tactic(auto, using(crate::proofs::Outcomes::read_sound, crate::proofs::Outcomes::read_unsound), unfolding(crate::specs::Calls::read_number_is, crate::specs::Calls::fields_after))]
pub fn read(octets: &[u8], fields: &mut [u64]) -> u64
    ensures { (result ≡ read_number_is octets.now fields.old) × (fields.new ≡ fields_after octets.now fields.old) }
{
    if fields.len() < 88 {
        return u64::from(Refusal::WrongSize);
    }
    let b = codec_reading::brief(octets);
    if codec_pdu::sound(b.kind) {
        codec_words::store_fields(fields, octets, codec_reading::items_at(octets), b);
        return 0;
    }
    number_of(b.kind)
}

// An answer whose first word is a length, the others zero: in two stores, which the compiler writes out, since a call to clear so many words takes of the stack.
fn store_length(answer: &mut [u64], n: usize)
    requires { answer_size ≤ length answer.old }
    ensures { answer.new ≡ put answer.old 0 (length_answer n) }
{
    let zeros = [0u64; HALF];
    base_lists::store(&mut *answer, HALF, &zeros);
    let mut words = [0u64; HALF];
    words[0] = n as u64;
    base_lists::store(answer, 0, &words);
}

// Writes the PDU that 88 words say, whose parts lie in `bytes`, at the start of the output.
pub fn write(fields: &[u64], bytes: &[u8], out: &mut [u8], answer: &mut [u64]) -> u64
    ensures { (result ≡ write_number fields.now bytes.now out.old answer.old) × (out.new ≡ write_output fields.now bytes.now out.old answer.old) × (answer.new ≡ write_answer fields.now bytes.now out.old answer.old) }
{
    if answer.len() < ANSWER_SIZE {
        return u64::from(Refusal::WrongSize);
    }
    match codec_writing::write(fields, bytes, out) {
        Ok(n) => {
            store_length(answer, n);
            0
        }
        Err(fault) => u64::from(fault),
    }
}

// Separates a datagram: start and length of its k-th PDU, and how many there are.
#[tactic(auto, unfolding(crate::specs::Calls::separate_number, crate::specs::Calls::part_after))]
pub fn separate(datagram: &[u8], k: u64, part: &mut [u64]) -> u64
    ensures { (result ≡ separate_number datagram.now k part.old) × (part.new ≡ part_after datagram.now k part.old) }
{
    if part.len() < 3 {
        return u64::from(Refusal::WrongSize);
    }
    match codec_separation::separate(datagram, k) {
        Ok(Parts { count, part: found }) => {
            let words = [found.start as u64, found.len as u64, count as u64];
            base_lists::store(part, 0, &words);
            0
        }
        Err(r) => u64::from(r),
    }
}

// Joins PDUs of these lengths, one after the other in `bytes`, to a datagram at the start of the output.
#[inline(never)]
#[tactic(auto, unfolding(crate::specs::Calls::join_number, crate::specs::Calls::join_output, crate::specs::Calls::join_answer))]
pub fn join(bytes: &[u8], lengths: &[u64], out: &mut [u8], answer: &mut [u64]) -> u64
    ensures { (result ≡ join_number bytes.now lengths.now out.old answer.old) × (out.new ≡ join_output bytes.now lengths.now out.old answer.old) × (answer.new ≡ join_answer bytes.now lengths.now out.old answer.old) }
{
    if answer.len() < ANSWER_SIZE {
        return u64::from(Refusal::WrongSize);
    }
    match codec_joining::join(bytes, lengths, out) {
        Ok(n) => {
            store_length(answer, n);
            0
        }
        Err(r) => u64::from(r),
    }
}
