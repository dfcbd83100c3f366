// What the rows ask of a record beside its state.
#![tactic(auto)]

ghost use Rattle.std.specs.Prelude.{◌≡◌};
ghost use Rattle.row_conditions.specs.Conditions.{more_of, mark_of, limited_of, conditions_of};

use row_events::Conditions;
use table_layout::Settings;
use table_record::{Record, State};

// Of "RCR < RCR_MAX" and "AEC < AEC_MAX" the one that the rows of the state ask for.
fn more_of(state: State, rcr: bool, aec: bool) -> bool
    ensures { result ≡ more_of state rcr aec }
{
    match state {
        State::IResultWait1 | State::IResultWait2 | State::RResultRespWait => rcr,
        State::IResultRespWait | State::RInvokeRespWait1 | State::RInvokeRespWait2 => aec,
        _ => false,
    }
}

// Of HoldOn, user acknowledgement and hold-on sent the one that the rows of the state ask for.
fn mark_of(state: State, held: bool, acked: bool, sent: bool) -> bool
    ensures { result ≡ mark_of state held acked sent }
{
    match state {
        State::IResultWait2 => held,
        State::IResultRespWait | State::RInvokeRespWait1 | State::RInvokeRespWait2 => acked,
        State::RResultWait => sent,
        _ => false,
    }
}

// Whether the deadline is a waiting limit: in TIDOK WAIT, held on, and after a hold-on of ours.
fn limited_of(state: State, held: bool, sent: bool, limit: bool) -> bool
    ensures { result ≡ limited_of state held sent limit }
{
    match state {
        State::IResultWait2 => held && limit,
        State::RTidokWait1 | State::RTidokWait2 => limit,
        State::RResultWait => sent && limit,
        _ => false,
    }
}

// The conditions of a record in its state.
#[tactic(auto, unfolding(crate::specs::Conditions::conditions_of))]
pub fn conditions_of(s: Settings, r: Record) -> Conditions
    ensures { result ≡ conditions_of s r }
{
    Conditions {
        more: more_of(r.state, r.rcr.0 < s.rcr_max, r.aec.0 < s.aec_max),
        mark: mark_of(r.state, r.hold_on, r.user_ack, r.hold_on_sent),
        limited: limited_of(r.state, r.hold_on, r.hold_on_sent, 0 < r.limit),
    }
}
