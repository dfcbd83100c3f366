// What a received PDU is refused for, and what an accepted one brings.
#![tactic(auto)]

ghost use Rattle.std.specs.Prelude.{◌≡◌, ◌+◌, ◌*◌, ◌≤◌, length, Some};
ghost use Rattle.base_layout.specs.Layout.{header_size, record_size};
ghost use Rattle.codec_pdu.specs.Brief.{as_pdu};
ghost use Rattle.step_arrivals.specs.Arrivals.{name_of};
ghost use Rattle.table_well_formed.specs.WellFormed.{WellFormed};
ghost use Rattle.call_refusal.specs.Judging.{lowest};
ghost use Rattle.call_receive.specs.Receives.{wrong_length, receive_tests, user_part, kept_part, is_valid, arriver_of, taken_turn, opened_turn, unmatched_turn, naming_turn, receive_turn};

use base_numbers::Refusal;
use codec_pdu::{Brief, Kind};
use row_events::Opening;
use row_turns::Given;
use step_carrying::Coming;
use step_plan::{Call, Holder, Part, Tells};
use table_record::Role;
use table_tids::Test;

// The turn that an accepted PDU brings.
#[derive(Clone, Copy)]
pub struct Arrival {
    pub coming: Coming,
    pub given: Given,
    pub call: Call,
}

// Number 11.
fn wrong_length(len: usize) -> bool
    ensures { result ≡ wrong_length len }
{
    len == 0 || base_layout::DATAGRAM_BOUND < len
}

// The lowest number that applies.
pub fn receive_refusal(
    t: &[u8],
    store: usize,
    output: usize,
    time: u64,
    peer: u64,
    len: usize,
) -> Result<(), Refusal>
    ensures { result ≡ lowest (receive_tests t.now store output time peer len) }
{
    call_refusal::peer_entry(t, store, output, time, peer)?;
    if wrong_length(len) {
        return Err(Refusal::WrongLength);
    }
    Ok(())
}

// The user data of a PDU, as a part of it.
#[tactic(auto, unfolding(crate::specs::Receives::user_part, codec_pdu::specs::Brief::as_pdu))]
fn user_part(b: Brief) -> Part
    ensures { result ≡ user_part (as_pdu b) }
{
    Part {
        start: b.start,
        len: b.len,
    }
}

// A PDU that comes to the live record at a place.
#[tactic(auto, unfolding(crate::specs::Receives::taken_turn, crate::specs::Receives::taken_call, codec_pdu::specs::Brief::as_pdu, codec_pdu::specs::Pdu::info_of, codec_items::specs::Info::info_from, codec_items::specs::Info::first_from))]
fn taken(t: &[u8], place: usize, time: u64, b: Brief) -> Arrival
    requires { header_size + place * record_size + record_size ≤ length t.now }
    ensures { result ≡ taken_turn t.now place time (as_pdu b) b.unknown.identity }
{
    let cause = step_arrivals::abort_of(b.kind);
    let row = step_live::row_at(t, place, step_arrivals::event_of(b.kind));
    Arrival {
        coming: Coming::Live(place, row),
        given: Given {
            time,
            kind: cause.abort_type,
            reason: cause.reason,
            len: 0,
            exit_len: 0,
            unknown: b.unknown.identity,
        },
        call: Call {
            message: step_plan::no_part(),
            info: Part {
                start: b.info.start,
                len: b.info.len,
            },
            user: user_part(b),
            tells: Tells::Nothing,
        },
    }
}

// The data of an Invoke that may be kept: one of more than 1,024 octets is kept nowhere.
#[tactic(auto, unfolding(crate::specs::Receives::kept_part, codec_pdu::specs::Brief::as_pdu))]
fn kept_part(b: Brief) -> Part
    ensures { result ≡ kept_part (as_pdu b) }
{
    if base_layout::CELL_SIZE < b.len {
        return step_plan::no_part();
    }
    user_part(b)
}

#[tactic(auto, unfolding(crate::specs::Receives::is_valid))]
fn is_valid(test: Test) -> bool
    ensures { result ≡ is_valid test }
{
    matches!(test, Test::Valid)
}

// Whom a PDU without a live record concerns, and the place where its record would be opened.
#[tactic(auto, unfolding(crate::specs::Receives::arriver_of))]
fn arriver(place: usize, role: Role, peer: u8, tid: u16, kind: Kind) -> Holder
    ensures { result ≡ arriver_of place role peer tid kind }
{
    let want = step_arrivals::wanted_by(kind);
    Holder {
        place,
        role,
        peer,
        tid,
        class: want.class,
        up: want.up,
        tidnew: false,
        len: 0,
    }
}

// An opening for this PDU.
#[tactic(auto, using(crate::proofs::KeptData::kept_fits), unfolding(crate::specs::Receives::opened_turn, crate::specs::Receives::opened_call, codec_pdu::specs::Brief::as_pdu))]
fn opened_by(opening: Opening, h: Holder, time: u64, b: Brief) -> Arrival
    ensures { result ≡ opened_turn opening h time (as_pdu b) b.unknown.identity }
{
    let message = kept_part(b);
    Arrival {
        coming: Coming::Opens(opening, h, None),
        given: Given {
            time,
            kind: 0,
            reason: 0,
            len: message.len as u32,
            exit_len: 0,
            unknown: b.unknown.identity,
        },
        call: Call {
            message,
            info: step_plan::no_part(),
            user: user_part(b),
            tells: Tells::Nothing,
        },
    }
}

// A PDU without a live record.
#[tactic(auto, unfolding(crate::specs::Receives::unmatched_turn, crate::specs::Receives::arrival_opening, codec_pdu::specs::Brief::as_pdu))]
fn unmatched(t: &[u8], role: Role, peer: u8, tid: u16, time: u64, s: &[u8], b: Brief) -> Arrival
    requires { WellFormed t.now }
    ensures { result ≡ unmatched_turn t.now role peer tid time s.now (as_pdu b) b.unknown.identity }
{
    let free = table_finding::free(t, table_layout::records(t));
    let full = free.is_none();
    let cached = table_layout::cached_of(t, usize::from(peer));
    let valid = is_valid(table_tids::tid_test(cached, tid));
    let opening = row_choice::opening_of(step_arrivals::arrived(s, b, full, valid));
    let h = arriver(step_opening::place_for(free), role, peer, tid, b.kind);
    opened_by(opening, h, time, b)
}

// A PDU that names this record.
#[tactic(auto, using(crate::proofs::Briefed::taken_same, crate::proofs::Briefed::unmatched_same, crate::proofs::Received::named_by_tid), unfolding(crate::specs::Receives::naming_turn))]
fn naming(t: &[u8], role: Role, peer: u8, tid: u16, time: u64, s: &[u8]) -> Arrival
    requires well_formed { WellFormed t.now }
    requires s_value { name_of s.now ≡ Some (role, tid) }
    ensures { result ≡ naming_turn t.now role peer tid time s.now }
{
    let b = codec_reading::brief(s);
    let rcv = step_arrivals::tid_of(s);
    match table_finding::receiver(t, table_layout::records(t), role, u64::from(peer), rcv) {
        Some(i) => taken(t, i, time, b),
        None => unmatched(t, role, peer, tid, time, s, b),
    }
}

// What an accepted PDU brings; one that names no record brings nothing but its time.
#[tactic(auto, unfolding(crate::specs::Receives::receive_turn))]
pub fn receive_turn(t: &[u8], time: u64, peer: u8, s: &[u8]) -> Option<Arrival>
    requires { WellFormed t.now }
    ensures { result ≡ receive_turn t.now time peer s.now }
{
    let (role, tid) = step_arrivals::named_by(s)?;
    Some(naming(t, role, peer, tid, time, s))
}
