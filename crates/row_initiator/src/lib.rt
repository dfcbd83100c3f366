// The rows of the initiator's states: one function a state, one arm an event.
// Each state lists all sixteen events, as document 01 does: an event that a catch-all arm took would not be missed.
#![tactic(auto)]

ghost use Rattle.std.specs.Prelude.{◌≡◌};
ghost use Rattle.row_initiator.specs.Initiator.{result_wait1, result_wait2, result_resp_wait, wait_timeout};

use row_events::{Conditions, Event, Row};

// RESULT WAIT of class 1.
pub fn result_wait1(e: Event, c: Conditions) -> Row
    ensures { result ≡ result_wait1 e c }
{
    match e {
        Event::Invoke => Row::Ignored,
        Event::InvokeRid => Row::Ignored,
        Event::ResultCut => Row::Ignored,
        Event::ResultCutRid => Row::Ignored,
        Event::Result => Row::Ignored,
        Event::ResultRid => Row::Ignored,
        Event::PlainAck => Row::Confirmed,
        Event::TidAck => { if c.more { Row::TidokSent } else { Row::Ignored } }
        Event::TidAckRid => { if c.more { Row::TidokSent } else { Row::Ignored } }
        Event::ReceivedAbort => Row::PeerAborts,
        Event::Segmented => Row::Ignored,
        Event::MalformedPdu => Row::Malformed,
        Event::UserAnswer => Row::NotAllowed,
        Event::UserResult => Row::NotAllowed,
        Event::UserAbort => Row::UserAborts,
        Event::Timer => { if c.more { Row::Resent } else { Row::GivenUp } }
    }
}

// RESULT WAIT of class 2; the mark is HoldOn.
pub fn result_wait2(e: Event, c: Conditions) -> Row
    ensures { result ≡ result_wait2 e c }
{
    match e {
        Event::Invoke => Row::Ignored,
        Event::InvokeRid => Row::Ignored,
        Event::ResultCut => Row::ResultUnsupported,
        Event::ResultCutRid => Row::ResultUnsupported,
        Event::Result => {
            if c.mark {
                Row::ResultTaken
            } else {
                Row::ResultConfirms
            }
        }
        Event::ResultRid => {
            if c.mark {
                Row::ResultTaken
            } else {
                Row::ResultConfirms
            }
        }
        Event::PlainAck => { if c.mark { Row::Ignored } else { Row::HeldOn } }
        Event::TidAck => { if c.more { Row::TidokSent } else { Row::Ignored } }
        Event::TidAckRid => { if c.more { Row::TidokSent } else { Row::Ignored } }
        Event::ReceivedAbort => Row::PeerAborts,
        Event::Segmented => Row::Ignored,
        Event::MalformedPdu => Row::Malformed,
        Event::UserAnswer => Row::NotAllowed,
        Event::UserResult => Row::NotAllowed,
        Event::UserAbort => Row::UserAborts,
        Event::Timer => {
            if c.limited {
                Row::HeldOnWaitEnds
            } else if c.more {
                Row::Resent
            } else {
                Row::GivenUp
            }
        }
    }
}

// RESULT RESP WAIT; the mark is user acknowledgement.
pub fn result_resp_wait(e: Event, c: Conditions) -> Row
    ensures { result ≡ result_resp_wait e c }
{
    match e {
        Event::Invoke => Row::Ignored,
        Event::InvokeRid => Row::Ignored,
        Event::ResultCut => Row::Ignored,
        Event::ResultCutRid => Row::Ignored,
        Event::Result => Row::Ignored,
        Event::ResultRid => Row::Ignored,
        Event::PlainAck => Row::Ignored,
        Event::TidAck => Row::Ignored,
        Event::TidAckRid => Row::Ignored,
        Event::ReceivedAbort => Row::PeerAborts,
        Event::Segmented => Row::Ignored,
        Event::MalformedPdu => Row::Malformed,
        Event::UserAnswer => Row::ResultAnswered,
        Event::UserResult => Row::NotAllowed,
        Event::UserAbort => Row::UserAborts,
        Event::Timer => {
            if !c.mark {
                Row::ResultAcked
            } else if c.more {
                Row::UserAwaited
            } else {
                Row::UserSilent
            }
        }
    }
}

// WAIT TIMEOUT.
pub fn wait_timeout(e: Event) -> Row
    ensures { result ≡ wait_timeout e }
{
    match e {
        Event::Invoke => Row::Ignored,
        Event::InvokeRid => Row::Ignored,
        Event::ResultCut => Row::Ignored,
        Event::ResultCutRid => Row::ResultSeenAgain,
        Event::Result => Row::Ignored,
        Event::ResultRid => Row::ResultSeenAgain,
        Event::PlainAck => Row::Ignored,
        Event::TidAck => Row::Ignored,
        Event::TidAckRid => Row::Ignored,
        Event::ReceivedAbort => Row::PeerAborts,
        Event::Segmented => Row::Ignored,
        Event::MalformedPdu => Row::Malformed,
        Event::UserAnswer => Row::NotAllowed,
        Event::UserResult => Row::NotAllowed,
        Event::UserAbort => Row::UserAborts,
        Event::Timer => Row::TimeoutEnds,
    }
}
