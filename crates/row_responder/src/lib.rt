// The rows of the responder's states: one function a state, one arm an event.
// Each state lists all sixteen events, as document 01 does: an event that a catch-all arm took would not be missed.
#![tactic(auto)]

ghost use Rattle.std.specs.Prelude.{◌≡◌};
ghost use Rattle.row_responder.specs.Responder.{tidok_wait, invoke_resp_wait1, invoke_resp_wait2, result_wait, result_resp_wait, wait_timeout};

use row_events::{Conditions, Event, Row};

// TIDOK WAIT of class 2, or else 1.
pub fn tidok_wait(e: Event, two: bool, c: Conditions) -> Row
    ensures { result ≡ tidok_wait e two c }
{
    match e {
        Event::Invoke => Row::Ignored,
        Event::InvokeRid => Row::TidveRepeated,
        Event::ResultCut => Row::Ignored,
        Event::ResultCutRid => Row::Ignored,
        Event::Result => Row::Ignored,
        Event::ResultRid => Row::Ignored,
        Event::PlainAck => Row::Ignored,
        Event::TidAck => { if two { Row::Verified2 } else { Row::Verified1 } }
        Event::TidAckRid => { if two { Row::Verified2 } else { Row::Verified1 } }
        Event::ReceivedAbort => Row::PeerAbortsUnseen,
        Event::Segmented => Row::Ignored,
        Event::MalformedPdu => Row::MalformedUnseen,
        Event::UserAnswer => Row::NotAllowed,
        Event::UserResult => Row::NotAllowed,
        Event::UserAbort => Row::NotAllowed,
        Event::Timer => {
            if c.limited {
                Row::TidokWaitEnds
            } else {
                Row::Ignored
            }
        }
    }
}

// INVOKE RESP WAIT of class 1; the mark is user acknowledgement.
pub fn invoke_resp_wait1(e: Event, c: Conditions) -> Row
    ensures { result ≡ invoke_resp_wait1 e c }
{
    match e {
        Event::Invoke => Row::Ignored,
        Event::InvokeRid => Row::Ignored,
        Event::ResultCut => Row::Ignored,
        Event::ResultCutRid => Row::Ignored,
        Event::Result => Row::Ignored,
        Event::ResultRid => Row::Ignored,
        Event::PlainAck => Row::Ignored,
        Event::TidAck => Row::Ignored,
        Event::TidAckRid => Row::Ignored,
        Event::ReceivedAbort => Row::PeerAborts,
        Event::Segmented => Row::Ignored,
        Event::MalformedPdu => Row::Malformed,
        Event::UserAnswer => Row::InvokeAnswered,
        Event::UserResult => Row::NotAllowed,
        Event::UserAbort => Row::UserAborts,
        Event::Timer => {
            if !c.mark {
                Row::InvokeAcked
            } else if c.more {
                Row::UserAwaited
            } else {
                Row::UserSilent
            }
        }
    }
}

// INVOKE RESP WAIT of class 2; the mark is user acknowledgement.
pub fn invoke_resp_wait2(e: Event, c: Conditions) -> Row
    ensures { result ≡ invoke_resp_wait2 e c }
{
    match e {
        Event::Invoke => Row::Ignored,
        Event::InvokeRid => Row::Ignored,
        Event::ResultCut => Row::Ignored,
        Event::ResultCutRid => Row::Ignored,
        Event::Result => Row::Ignored,
        Event::ResultRid => Row::Ignored,
        Event::PlainAck => Row::Ignored,
        Event::TidAck => Row::Ignored,
        Event::TidAckRid => Row::Ignored,
        Event::ReceivedAbort => Row::PeerAborts,
        Event::Segmented => Row::Ignored,
        Event::MalformedPdu => Row::Malformed,
        Event::UserAnswer => Row::UserWorks,
        Event::UserResult => Row::ResultSent,
        Event::UserAbort => Row::UserAborts,
        Event::Timer => {
            if !c.mark {
                Row::HoldOnSent
            } else if c.more {
                Row::UserAwaited
            } else {
                Row::UserSilent
            }
        }
    }
}

// RESULT WAIT; the mark is hold-on sent.
pub fn result_wait(e: Event, c: Conditions) -> Row
    ensures { result ≡ result_wait e c }
{
    match e {
        Event::Invoke => Row::Ignored,
        Event::InvokeRid => {
            if c.mark {
                Row::HoldOnRepeated
            } else {
                Row::Ignored
            }
        }
        Event::ResultCut => Row::Ignored,
        Event::ResultCutRid => Row::Ignored,
        Event::Result => Row::Ignored,
        Event::ResultRid => Row::Ignored,
        Event::PlainAck => Row::Ignored,
        Event::TidAck => Row::Ignored,
        Event::TidAckRid => Row::Ignored,
        Event::ReceivedAbort => Row::PeerAborts,
        Event::Segmented => Row::Ignored,
        Event::MalformedPdu => Row::Malformed,
        Event::UserAnswer => Row::NotAllowed,
        Event::UserResult => Row::ResultSent,
        Event::UserAbort => Row::UserAborts,
        Event::Timer => {
            if c.limited {
                Row::ResultWaitEnds
            } else {
                Row::HoldOnSent
            }
        }
    }
}

// RESULT RESP WAIT.
pub fn result_resp_wait(e: Event, c: Conditions) -> Row
    ensures { result ≡ result_resp_wait e c }
{
    match e {
        Event::Invoke => Row::Ignored,
        Event::InvokeRid => Row::Ignored,
        Event::ResultCut => Row::Ignored,
        Event::ResultCutRid => Row::Ignored,
        Event::Result => Row::Ignored,
        Event::ResultRid => Row::Ignored,
        Event::PlainAck => Row::Confirmed,
        Event::TidAck => Row::Ignored,
        Event::TidAckRid => Row::Ignored,
        Event::ReceivedAbort => Row::PeerAborts,
        Event::Segmented => Row::Ignored,
        Event::MalformedPdu => Row::Malformed,
        Event::UserAnswer => Row::NotAllowed,
        Event::UserResult => Row::NotAllowed,
        Event::UserAbort => Row::UserAborts,
        Event::Timer => {
            if c.more {
                Row::ResultResent
            } else {
                Row::GivenUp
            }
        }
    }
}

// WAIT TIMEOUT.
pub fn wait_timeout(e: Event) -> Row
    ensures { result ≡ wait_timeout e }
{
    match e {
        Event::Invoke => Row::Ignored,
        Event::InvokeRid => Row::InvokeSeenAgain,
        Event::ResultCut => Row::Ignored,
        Event::ResultCutRid => Row::Ignored,
        Event::Result => Row::Ignored,
        Event::ResultRid => Row::Ignored,
        Event::PlainAck => Row::Ignored,
        Event::TidAck => Row::Ignored,
        Event::TidAckRid => Row::TidokSeenAgain,
        Event::ReceivedAbort => Row::PeerAborts,
        Event::Segmented => Row::Ignored,
        Event::MalformedPdu => Row::Malformed,
        Event::UserAnswer => Row::NotAllowed,
        Event::UserResult => Row::NotAllowed,
        Event::UserAbort => Row::UserAborts,
        Event::Timer => Row::TimeoutEnds,
    }
}
