// Judging the words of a PDU to be written, in the order of the C interface.
#![tactic(auto)]

ghost use Rattle.std.specs.Prelude.{◌≡◌, ◌+◌, ◌≤◌, ◌<◌, min, length, ltb};
ghost use Rattle.base_layout.specs.Layout.{datagram_bound};
ghost use Rattle.codec_said.specs.Said.{word, kind_said, items_said, pdu_said};
ghost use Rattle.codec_encoding.specs.Write.{kind_fault, rest_fault};
ghost use Rattle.codec_verdict.specs.Length.{placed, header_said, form_length, length_said};
ghost use Rattle.codec_verdict.specs.Widths.{longest_said, widths_of, row_narrow, head_narrow, item_narrow, items_narrow, none_too_wide, inside, fits};
ghost use Rattle.codec_verdict.specs.Judge.{items_inside, fault_in, judged_of};

use base_numbers::{Malformed, Refusal};
use codec_pdu::Kind;

// Lengths are added up to one over the bound.
const OVER: u64 = DATAGRAM_BOUND + 1;

const DATAGRAM_BOUND: u64 = base_layout::DATAGRAM_BOUND as u64;

const ANY: u64 = u64::MAX;

// A sum up to 1,501: what is over 1,500 stays so, and none wraps.
fn capped(a: u64, b: u64) -> u64
    ensures { result ≡ min (a + b) 1501 }
{
    a.saturating_add(b).min(OVER)
}

// How many items there are places for.
fn places(count: u64) -> usize
    ensures { result ≡ placed count }
{
    count.min(16) as usize
}

// The length of the fixed header, up to 1,501.
#[tactic(auto, unfolding(crate::specs::Length::header_said))]
fn header_length(words: &[u64]) -> u64
    requires { 88 ≤ length words.now }
    ensures { result ≡ min (header_said words.now) 1501 }
{
    match words[0] {
        2 => 3,
        3 => 3,
        7 => capped(4, words[13]),
        _ => 4,
    }
}

// The octets before an item's data, by the word of its form.
fn form_length(form: u64) -> u64
    ensures { result ≡ form_length form }
{
    if form == 0 { 1 } else { 2 }
}

// Whether the length that the words say is over 1,500.
fn over_long(words: &[u64]) -> bool
    requires { 88 ≤ length words.now }
    ensures { result ≡ ltb datagram_bound (length_said words.now) }
{
    let mut sum = capped(header_length(words), words[17]);
    for k in 0..places(words[15]) {
        let at = 24 + 4 * k;
        sum = capped(capped(sum, form_length(words[at + 1])), words[at + 3]);
    }
    DATAGRAM_BOUND < sum
}

// The longest data of an item, by the word of its form.
fn longest(form: u64) -> u64
    ensures { result ≡ longest_said form }
{
    if form == 0 { 3 } else { 255 }
}

// The widest values of words 0 to 7 by the type, 0 where the type hasn't the word: type, GTR, TTR, RID, TID, version, TIDnew, U/P. There is no type 0.
#[tactic(auto, using(crate::proofs::Types::untyped), unfolding(crate::specs::Widths::widths_of, base_lists::specs::Seq::tab, crate::specs::Widths::widths))]
fn first_widths(t: u64) -> [u64; 8]
    requires { t < 8 }
    ensures { result ≡ widths_of t 0 }
{
    match t {
        1 => [ANY, 1, 1, 1, 65535, 3, 1, 1],
        2 => [ANY, 1, 1, 1, 65535, 0, 0, 0],
        3 => [ANY, 0, 0, 1, 65535, 0, 0, 0],
        4 => [ANY, 0, 0, 0, 65535, 0, 0, 0],
        5 => [ANY, 1, 1, 1, 65535, 0, 0, 0],
        6 => [ANY, 1, 1, 1, 65535, 0, 0, 0],
        7 => [ANY, 0, 0, 1, 65535, 0, 0, 0],
        _ => [0; 8],
    }
}

// Of words 8 to 15: class, Tve/Tok, abort type, abort reason, packet number, Nack count, start of the Nack list, number of items.
#[tactic(auto, using(crate::proofs::Types::untyped), unfolding(crate::specs::Widths::widths_of, base_lists::specs::Seq::tab, crate::specs::Widths::widths))]
fn middle_widths(t: u64) -> [u64; 8]
    requires { t < 8 }
    ensures { result ≡ widths_of t 8 }
{
    match t {
        1 => [3, 0, 0, 0, 0, 0, 0, ANY],
        2 => [0, 0, 0, 0, 0, 0, 0, ANY],
        3 => [0, 1, 0, 0, 0, 0, 0, ANY],
        4 => [0, 0, 7, 255, 0, 0, 0, ANY],
        5 => [0, 0, 0, 0, 255, 0, 0, ANY],
        6 => [0, 0, 0, 0, 255, 0, 0, ANY],
        7 => [0, 0, 0, 0, 0, 255, ANY, ANY],
        _ => [0; 8],
    }
}

// Of words 16 to 23: start and length of the user data; the first unknown item, which is passed over; the others are zero.
#[tactic(auto, using(crate::proofs::Types::untyped), unfolding(crate::specs::Widths::widths_of, base_lists::specs::Seq::tab, crate::specs::Widths::widths))]
fn last_widths(t: u64) -> [u64; 8]
    requires { t < 8 }
    ensures { result ≡ widths_of t 16 }
{
    match t {
        1 => [ANY, ANY, ANY, ANY, 0, 0, 0, 0],
        2 => [ANY, ANY, ANY, ANY, 0, 0, 0, 0],
        3 => [0, ANY, ANY, ANY, 0, 0, 0, 0],
        4 => [0, ANY, ANY, ANY, 0, 0, 0, 0],
        5 => [ANY, ANY, ANY, ANY, 0, 0, 0, 0],
        6 => [ANY, ANY, ANY, ANY, 0, 0, 0, 0],
        7 => [0, ANY, ANY, ANY, 0, 0, 0, 0],
        _ => [0; 8],
    }
}

// Whether none of the words from `at` on is over its bound.
fn row_narrow(words: &[u64], at: usize, most: &[u64]) -> bool
    requires { at + length most.now ≤ length words.now }
    ensures { result ≡ row_narrow words.now at most.now }
{
    words[at..]
        .iter()
        .zip(most)
        .all(|(word, most)| word <= most)
}

// Whether none of the words 0 to 23 is too wide for its place.
#[tactic(auto, unfolding(crate::specs::Widths::head_narrow))]
fn head_narrow(words: &[u64]) -> bool
    requires { (88 ≤ length words.now) × (word words.now 0 < 8) }
    ensures { result ≡ head_narrow words.now }
{
    row_narrow(words, 0, &first_widths(words[0]))
        && row_narrow(words, 8, &middle_widths(words[0]))
        && row_narrow(words, 16, &last_widths(words[0]))
}

// Whether none of the four words of the item k is too wide for its place; all are 0 where there is no item k.
#[tactic(auto, unfolding(crate::specs::Widths::widest_four))]
fn item_narrow(words: &[u64], k: usize) -> bool
    requires { (88 ≤ length words.now) × (k < 16) }
    ensures { result ≡ item_narrow words.now k }
{
    let at = 24 + 4 * k;
    let most = if (k as u64) < words[15] {
        [15, 1, ANY, longest(words[at + 1])]
    } else {
        [0; 4]
    };
    row_narrow(words, at, &most)
}

// Whether no word of the 16 items is too wide for its place.
fn items_narrow(words: &[u64]) -> bool
    requires { 88 ≤ length words.now }
    ensures { result ≡ items_narrow words.now }
{
    (0..16).all(|k| item_narrow(words, k))
}

// Whether no word is too wide for its place.
fn none_too_wide(words: &[u64]) -> bool
    requires { (88 ≤ length words.now) × (word words.now 0 < 8) }
    ensures { result ≡ none_too_wide words.now }
{
    head_narrow(words) && items_narrow(words)
}

// Whether len octets from start on lie within n.
#[tactic(auto, using(crate::proofs::Steps::inside_after, crate::proofs::Steps::not_inside))]
fn lies_inside(n: u64, start: u64, len: u64) -> bool
    ensures { result ≡ inside n start len }
{
    start <= n && len <= n - start
}

// Whether the words fit: D1 where they don't.
#[tactic(auto, unfolding(crate::specs::Widths::fits))]
fn fit(words: &[u64], n: u64) -> bool
    requires { (88 ≤ length words.now) × (word words.now 0 < 8) }
    ensures { result ≡ fits words.now n }
{
    none_too_wide(words)
        && lies_inside(n, words[14], words[13])
        && lies_inside(n, words[16], words[17])
}

// D5 and D6.
#[tactic(auto, unfolding(codec_encoding::specs::Write::kind_fault))]
fn kind_fault(kind: Kind) -> Result<(), Malformed>
    ensures { result ≡ kind_fault kind }
{
    match kind {
        Kind::Invoke { class: 3, .. } => Err(Malformed::D5),
        Kind::Abort { abort_type, .. } if 1 < abort_type => Err(Malformed::D6),
        Kind::Wrong(d) => Err(d),
        _ => Ok(()),
    }
}

// Whether the data of every item lies within n octets.
fn items_inside(words: &[u64], n: u64) -> bool
    requires { 88 ≤ length words.now }
    ensures { result ≡ items_inside n (items_said words.now) (word words.now 15) }
{
    (0..places(words[15])).all(|k| {
        let at = 24 + 4 * k;
        lies_inside(n, words[at + 2], words[at + 3])
    })
}

// D4 and D7.
#[tactic(auto, unfolding(codec_encoding::specs::Write::rest_fault, codec_said::specs::Said::pdu_said))]
fn rest_fault(words: &[u64], kind: Kind) -> Result<(), Malformed>
    requires { (88 ≤ length words.now) × (kind ≡ kind_said words.now) }
    ensures { result ≡ rest_fault (pdu_said words.now) }
{
    if 16 < words[15] {
        Err(Malformed::D4)
    } else if codec_pdu::bare(kind) && words[17] != 0 {
        Err(Malformed::D7)
    } else {
        Ok(())
    }
}

// D5, D6, D3, D4, D7 of the PDU of this kind that the words say, whose items lie in n octets.
#[tactic(auto, unfolding(crate::specs::Judge::fault_in, codec_said::specs::Said::pdu_said))]
fn fault_in(words: &[u64], kind: Kind, n: u64) -> Result<(), Malformed>
    requires { (88 ≤ length words.now) × (kind ≡ kind_said words.now) }
    ensures { result ≡ fault_in n (pdu_said words.now) }
{
    kind_fault(kind)?;
    if !items_inside(words, n) {
        return Err(Malformed::D3);
    }
    rest_fault(words, kind)
}

// The kind of the PDU that the words say, with its parts in `bytes` octets; or why it isn't written.
#[tactic(auto, unfolding(crate::specs::Judge::judged_of, codec_pdu::specs::Pdu::blank_pdu, codec_said::specs::Said::pdu_said))]
pub fn judged_kind(words: &[u64], bytes: usize) -> Kind
    requires { 88 ≤ length words.now }
    ensures { result ≡ (judged_of words.now bytes).kind }
{
    if words[0] == 0 || 7 < words[0] {
        return Kind::Wrong(Malformed::D2);
    }
    if over_long(words) {
        return Kind::Refused(Refusal::WrongLength);
    }
    if !fit(words, bytes as u64) {
        return Kind::Wrong(Malformed::D1);
    }
    let kind = codec_said::kind_said(words);
    match fault_in(words, kind, bytes as u64) {
        Ok(()) => kind,
        Err(d) => Kind::Wrong(d),
    }
}
