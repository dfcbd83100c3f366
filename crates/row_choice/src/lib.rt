// Which row of document 01, "Events", an event meets: in a state, and without a live record.
#![tactic(auto)]

ghost use Rattle.std.specs.Prelude.{◌≡◌};
ghost use Rattle.row_choice.specs.Rows.{free_row, row_of, requested_of, invoke0_of, by_class, invoke12_of, opening_of};

use row_events::{Conditions, Event, Opening, Row};
use table_record::State;

// A free record has no row: what opens one is apart.
fn free_row(e: Event) -> Row
    ensures { result ≡ free_row e }
{
    match e {
        Event::UserAnswer | Event::UserResult | Event::UserAbort => Row::NotAllowed,
        _ => Row::Ignored,
    }
}

// The row of a state for an event under the record's conditions.
#[tactic(auto, unfolding(crate::specs::Rows::row_of))]
pub fn row_of(s: State, e: Event, c: Conditions) -> Row
    ensures { result ≡ row_of s e c }
{
    match s {
        State::Free => free_row(e),
        State::IResultWait1 => row_initiator::result_wait1(e, c),
        State::IResultWait2 => row_initiator::result_wait2(e, c),
        State::IResultRespWait => row_initiator::result_resp_wait(e, c),
        State::IWaitTimeout => row_initiator::wait_timeout(e),
        State::RTidokWait1 => row_responder::tidok_wait(e, false, c),
        State::RTidokWait2 => row_responder::tidok_wait(e, true, c),
        State::RInvokeRespWait1 => row_responder::invoke_resp_wait1(e, c),
        State::RInvokeRespWait2 => row_responder::invoke_resp_wait2(e, c),
        State::RResultWait => row_responder::result_wait(e, c),
        State::RResultRespWait => row_responder::result_resp_wait(e, c),
        State::RWaitTimeout => row_responder::wait_timeout(e),
    }
}

// The row of a request by its class.
#[tactic(auto, unfolding(crate::specs::Rows::requested_of))]
pub fn requested(class: u8) -> Opening
    ensures { result ≡ requested_of class }
{
    match class {
        0 => Opening::Requested0,
        1 => Opening::Requested1,
        _ => Opening::Requested2,
    }
}

// A PDU without a live record, and what the tests of it say.
#[derive(Clone, Copy)]
pub struct Arrived {
    // An Invoke, top bit 0.
    pub invoke: bool,
    // An Ack with TIDve, top bit 1.
    pub tidve: bool,
    pub malformed: bool,
    pub class: u8,
    // The version is not 0.
    pub wrong_version: bool,
    pub ttr_clear: bool,
    // More than 1,024 octets of data.
    pub too_long: bool,
    // No record is free.
    pub full: bool,
    // TIDnew is set.
    pub tidnew: bool,
    // The TID is valid.
    pub valid: bool,
}

#[tactic(auto, unfolding(crate::specs::Rows::invoke0_of))]
fn invoke0(a: Arrived) -> Opening
    ensures { result ≡ invoke0_of a }
{
    if a.wrong_version || a.ttr_clear || a.too_long {
        Opening::Ignored
    } else {
        Opening::Shown0
    }
}

// The row of class 1, or of class 2.
#[tactic(auto, unfolding(crate::specs::Rows::by_class))]
fn by_class(class: u8, one: Opening, two: Opening) -> Opening
    ensures { result ≡ by_class class one two }
{
    if class == 1 { one } else { two }
}

#[tactic(auto, unfolding(crate::specs::Rows::invoke12_of))]
fn invoke12(a: Arrived) -> Opening
    ensures { result ≡ invoke12_of a }
{
    if a.wrong_version {
        return Opening::WrongVersion;
    }
    if a.ttr_clear {
        return Opening::Unsupported;
    }
    if a.too_long {
        return Opening::TooLong;
    }
    if a.full {
        return Opening::Ignored;
    }
    if a.tidnew {
        return by_class(a.class, Opening::Restarted1, Opening::Restarted2);
    }
    if a.valid {
        return by_class(a.class, Opening::Valid1, Opening::Valid2);
    }
    by_class(a.class, Opening::ToVerify1, Opening::ToVerify2)
}

// The row of a PDU without a live record.
#[tactic(auto, unfolding(crate::specs::Rows::opening_of))]
pub fn opening_of(a: Arrived) -> Opening
    ensures { result ≡ opening_of a }
{
    if a.invoke {
        if a.malformed {
            Opening::Malformed
        } else if a.class == 0 {
            invoke0(a)
        } else {
            invoke12(a)
        }
    } else if a.tidve && !a.malformed {
        Opening::UnknownTidve
    } else {
        Opening::Ignored
    }
}
