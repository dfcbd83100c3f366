// What each row does: its right-hand side.
#![tactic(auto)]

ghost use Rattle.std.specs.Prelude.{◌≡◌};
ghost use Rattle.row_entries.specs.Acts.{resent_of, act_of, opening_act};

use row_columns::{
    Act, CAPTEMPEXCEEDED, Cache, Count, ExitInfo, INVALIDTID, Indication, Mark, NORESPONSE,
    NOTIMPLEMENTEDSAR, Next, PROTOERR, PROVIDER, Send, USER, WTPVERSIONONE, aborts, aborts_unseen,
    acks, ends, held_on, holds_on, keeps, resends, sends, shows, takes, verifies, waits,
};
use row_events::{Opening, Row};
use table_record::State;

// The TIDok once one was sent, else the Invoke.
fn resent(tidok: bool) -> Send
    ensures { result ≡ resent_of tidok }
{
    if tidok {
        Send::Tidok(true)
    } else {
        Send::Invoke(true)
    }
}

// The row of a live record; `kind` and `reason` are the received abort's, or `reason` the user's.
#[tactic(auto, unfolding(crate::specs::Acts::act_of))]
pub fn act_of(row: Row, tidok: bool, kind: u8, reason: u8) -> Act
    ensures { result ≡ act_of row tidok kind reason }
{
    match row {
        Row::Ignored => keeps(Send::Nothing),
        Row::NotAllowed => keeps(Send::Nothing),
        Row::PeerAborts => ends(Send::Nothing, Indication::Abort(kind, reason)),
        Row::Malformed => aborts(PROTOERR),
        Row::UserAborts => ends(Send::Abort(USER, reason), Indication::Nothing),
        Row::PeerAbortsUnseen => ends(Send::Nothing, Indication::Nothing),
        Row::MalformedUnseen => aborts_unseen(PROTOERR),
        Row::TidokSent => resends(Mark::TidokSent, Send::Tidok(tidok)),
        Row::Confirmed => ends(Send::Nothing, Indication::Confirm(true)),
        Row::HeldOn => held_on(),
        Row::Resent => resends(Mark::Same, resent(tidok)),
        Row::GivenUp => ends(Send::Nothing, Indication::Abort(PROVIDER, NORESPONSE)),
        Row::ResultUnsupported => aborts(NOTIMPLEMENTEDSAR),
        Row::ResultConfirms => takes(Indication::Confirm(false), Indication::Result),
        Row::ResultTaken => takes(Indication::Result, Indication::Nothing),
        Row::ResultAnswered => acks(State::IWaitTimeout, ExitInfo::Given),
        Row::ResultAcked => acks(State::IWaitTimeout, ExitInfo::Empty),
        Row::UserAwaited => waits(Next::Stays, Count::AecUp),
        Row::UserSilent => aborts(NORESPONSE),
        Row::ResultSeenAgain => keeps(Send::LastAck(true)),
        Row::TimeoutEnds => ends(Send::Nothing, Indication::Nothing),
        Row::Verified1 => shows(State::RInvokeRespWait1, true, Cache::SetIfNone),
        Row::Verified2 => shows(State::RInvokeRespWait2, true, Cache::SetIfNone),
        Row::TidveRepeated => keeps(Send::Tidve(true)),
        Row::InvokeAnswered => acks(State::RWaitTimeout, ExitInfo::Given),
        Row::InvokeAcked => acks(State::RWaitTimeout, ExitInfo::Empty),
        Row::UserWorks => waits(Next::Goes(State::RResultWait), Count::Same),
        Row::HoldOnSent => holds_on(),
        Row::ResultSent => sends(State::RResultRespWait, Send::Result(false)),
        Row::HoldOnRepeated => keeps(Send::HoldOn(true)),
        Row::ResultResent => resends(Mark::Same, Send::Result(true)),
        Row::InvokeSeenAgain => keeps(Send::LastAck(true)),
        Row::TidokSeenAgain => keeps(Send::LastAck(true)),
        Row::TidokWaitEnds => ends(Send::Nothing, Indication::Nothing),
        Row::HeldOnWaitEnds => ends(Send::Nothing, Indication::Abort(PROVIDER, NORESPONSE)),
        Row::ResultWaitEnds => aborts(NORESPONSE),
    }
}

// The row of what comes without a live record.
#[tactic(auto, unfolding(crate::specs::Acts::opening_act))]
pub fn opening_act(opening: Opening) -> Act
    ensures { result ≡ opening_act opening }
{
    match opening {
        Opening::Ignored => ends(Send::Nothing, Indication::Nothing),
        Opening::Requested0 => ends(Send::Invoke(false), Indication::Nothing),
        Opening::Requested1 => sends(State::IResultWait1, Send::Invoke(false)),
        Opening::Requested2 => sends(State::IResultWait2, Send::Invoke(false)),
        Opening::Malformed => aborts_unseen(PROTOERR),
        Opening::WrongVersion => aborts_unseen(WTPVERSIONONE),
        Opening::Unsupported => aborts_unseen(NOTIMPLEMENTEDSAR),
        Opening::TooLong => aborts_unseen(CAPTEMPEXCEEDED),
        Opening::Shown0 => ends(Send::Nothing, Indication::Invoke(false)),
        Opening::Valid1 => shows(State::RInvokeRespWait1, false, Cache::Set),
        Opening::Valid2 => shows(State::RInvokeRespWait2, false, Cache::Set),
        Opening::ToVerify1 => verifies(State::RTidokWait1, Cache::Same),
        Opening::ToVerify2 => verifies(State::RTidokWait2, Cache::Same),
        Opening::UnknownTidve => aborts_unseen(INVALIDTID),
        Opening::Restarted1 => verifies(State::RTidokWait1, Cache::Drop),
        Opening::Restarted2 => verifies(State::RTidokWait2, Cache::Drop),
    }
}
