// The C interface's two calls that hand on parts of lent slices: a datagram's PDU to the reader, an indication's data to the caller.
#![tactic(auto)]

ghost use Rattle.std.specs.Prelude.{◌≡◌, ◌+◌, ◌≤◌, length};
ghost use Rattle.c_parts.specs.Parts.{read_part_number, read_part_fields, source_said, place_said, copy_number, copy_output, data_number, data_output};
ghost use Rattle.step_shown.specs.Parts.{data_of};

use base_numbers::Refusal;
use codec_separation::Parts;
use step_shown::{Place, Source};

// Reads the k-th PDU of a datagram into 88 words: the reader is handed that part, an empty one where there is none.
#[tactic(auto, using(codec_separation::proofs::Ordered::answer_inside), unfolding(crate::specs::Parts::read_part_number, crate::specs::Parts::read_part_fields))]
pub fn read_part(datagram: &[u8], k: u64, fields: &mut [u64]) -> u64
    ensures { (result ≡ read_part_number datagram.now k fields.old) × (fields.new ≡ read_part_fields datagram.now k fields.old) }
{
    if fields.len() < 88 {
        return u64::from(Refusal::WrongSize);
    }
    match codec_separation::separate(datagram, k) {
        Ok(Parts { part, .. }) => {
            c_codec::read(&datagram[part.start..part.start + part.len], fields)
        }
        Err(r) => u64::from(r),
    }
}

// The slice that a source's word names.
fn source_said(word: u64) -> Source
    ensures { result ≡ source_said word }
{
    if word == 0 {
        Source::Datagram
    } else {
        Source::Store
    }
}

// Where an answer's words say that the data of its first or second indication lies.
#[tactic(auto, unfolding(crate::specs::Parts::place_said))]
fn place_said(answer: &[u64], at: usize) -> Place
    requires { at + 12 ≤ length answer.now }
    ensures { result ≡ place_said answer.now at }
{
    Place {
        source: source_said(answer[at + 8]),
        start: answer[at + 9] as usize,
        len: answer[at + 10] as usize,
    }
}

// Copies the part that a place names to the start of the output.
#[tactic(auto, unfolding(crate::specs::Parts::copy_number, crate::specs::Parts::copy_output))]
fn copy_part<'a>(datagram: &'a [u8], store: &'a [u8], place: Place, out: &mut [u8]) -> u64
    ensures { (result ≡ copy_number (data_of datagram.now store.now place) place.len out.old) × (out.new ≡ copy_output (data_of datagram.now store.now place) place.len out.old) }
{
    if out.len() < place.len {
        return u64::from(Refusal::WrongSize);
    }
    let named = step_shown::data_of(datagram, store, place);
    if named.len() == place.len {
        base_lists::store(out, 0, named);
        return 0;
    }
    u64::from(Refusal::WrongLength)
}

// Copies the data of an answer's indication, 0 the first and 1 the second, to the start of the output.
#[tactic(auto, unfolding(crate::specs::Parts::data_number, crate::specs::Parts::data_output))]
pub fn shown_data<'a>(
    datagram: &'a [u8],
    store: &'a [u8],
    answer: &[u64],
    k: u64,
    out: &mut [u8],
) -> u64
    ensures { (result ≡ data_number datagram.now store.now answer.now k out.old) × (out.new ≡ data_output datagram.now store.now answer.now k out.old) }
{
    if answer.len() < base_layout::ANSWER_SIZE {
        return u64::from(Refusal::WrongSize);
    }
    if 1 < k {
        return u64::from(Refusal::WrongLength);
    }
    let place = place_said(answer, 4 + 12 * (k as usize));
    copy_part(datagram, store, place, out)
}
