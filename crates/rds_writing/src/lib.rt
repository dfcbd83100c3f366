// Writing a frame from its words (TS 24.250, clause 5): the words are judged, and then the frame is stored.
#![tactic(auto)]

ghost use Rattle.std.specs.Prelude.{◌≡◌, ◌≤◌, length};
ghost use Rattle.rds_datagram.specs.Put.{done};
ghost use Rattle.rds_writing.specs.Write.{same_words, is_items, accepts, write_of};

use base_numbers::Refusal;
use rds_frame::Kind;
use rds_reading::Frame;

// Whether the words are those of the frame, each of the 100.
fn same_words(words: &[u64], f: Frame) -> bool
    requires { (100 ≤ length words.now) × (length f.list ≡ 15) }
    ensures { result ≡ same_words words.now f }
{
    let mut own = [0u64; 100];
    rds_words::store_fields(&mut own, f);
    for i in 0..100 {
        if own[i] != words[i] {
            return false;
        }
    }
    true
}

// Whether the information of this kind is the items of SET_PARAMETERS.
#[tactic(auto, unfolding(crate::specs::Write::is_items))]
fn is_items(kind: Kind) -> bool
    ensures { result ≡ is_items kind }
{
    matches!(kind, Kind::U { m: 11, .. })
}

// Whether some frame reads as these words, which say f: with the parts in the lent octets.
#[tactic(auto, unfolding(crate::specs::Write::accepts))]
fn accepted(words: &[u64], bytes: &[u8], f: Frame) -> bool
    requires { (100 ≤ length words.now) × (length f.list ≡ 15) }
    ensures { result ≡ accepts words.now bytes.now f }
{
    let list = f.list;
    same_words(words, f) && rds_size::body_size(bytes, f.body, list, is_items(f.head.kind)) <= 1520
}

// Writes the frame that the words say at the start of the output.
#[tactic(auto, using(crate::proofs::Said::said_full, crate::proofs::Said::accepted_fits), unfolding(crate::specs::Write::write_of))]
pub fn write(
    words: &[u64],
    bytes: &[u8],
    from_network: bool,
    out: &mut [u8],
) -> Result<usize, Refusal>
    ensures { done result out.new ≡ write_of words.now bytes.now from_network out.old }
{
    if words.len() < 100 || out.len() < 1523 {
        return Err(Refusal::WrongSize);
    }
    match rds_said::said(words) {
        Some(f) if accepted(words, bytes, f) => {
            Ok(rds_encoding::put_frame(out, bytes, f, from_network))
        }
        _ => Err(Refusal::WrongFrame),
    }
}
