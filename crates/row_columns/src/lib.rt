// The right-hand side of a row as data: its columns, and the shapes that the rows have in common.
#![tactic(auto, unfolding(crate::specs::Columns::act_with, crate::specs::Columns::taken, crate::specs::Columns::acked, crate::specs::Columns::stored, crate::specs::Columns::shown))]

ghost use Rattle.std.specs.Prelude.{◌≡◌};
ghost use Rattle.row_columns.specs.declared.Cache.TheVariants as Cache;
ghost use Rattle.row_columns.specs.declared.Count.TheVariants as Count;
ghost use Rattle.row_columns.specs.declared.Timer.TheVariants as Timer;
ghost use Rattle.row_columns.specs.Columns.{ended, aborted, aborted_unseen, kept, resent, held_on, holding_on, waiting, taken, acked, stored, sent, verifying, shown};

use table_record::State;

// 01, "Bytes on the air": an abort's types, and the provider's reasons.
pub const PROVIDER: u8 = 0;

pub const USER: u8 = 1;

pub const PROTOERR: u8 = 1;

pub const INVALIDTID: u8 = 2;

pub const NOTIMPLEMENTEDSAR: u8 = 4;

pub const WTPVERSIONONE: u8 = 6;

pub const CAPTEMPEXCEEDED: u8 = 7;

pub const NORESPONSE: u8 = 8;

// The next state; a record that ends is freed.
#[derive(Clone, Copy)]
pub enum Next {
    Stays,
    Ends,
    Goes(State),
}

// R is R[RCR] with RCR as the row leaves it.
#[derive(Clone, Copy)]
pub enum Timer {
    Runs,
    Stop,
    A,
    W,
    R,
}

#[derive(Clone, Copy)]
pub enum Count {
    Same,
    RcrZero,
    RcrUp,
    AecZero,
    AecUp,
}

#[derive(Clone, Copy)]
pub enum Mark {
    Same,
    HoldOn,
    TidokSent,
    HoldOnSent,
}

#[derive(Clone, Copy)]
pub enum ExitInfo {
    Same,
    Given,
    Empty,
}

#[derive(Clone, Copy)]
pub enum Cache {
    Same,
    Set,
    SetIfNone,
    Drop,
}

// The PDU to send, true where it is a repeat. Abort: type and reason.
#[derive(Clone, Copy)]
pub enum Send {
    Nothing,
    Invoke(bool),
    Tidok(bool),
    LastAck(bool),
    HoldOn(bool),
    Tidve(bool),
    Result(bool),
    Abort(u8, u8),
}

// Invoke: true where its data lies in the store. Confirm: true where an Ack caused it. Abort: type and reason.
#[derive(Clone, Copy)]
pub enum Indication {
    Nothing,
    Invoke(bool),
    Confirm(bool),
    Result,
    Abort(u8, u8),
}

// `cell`: the message given is written to the record's cell. `item`: the record takes the identity of the first unknown item of the PDU that came.
#[derive(Clone, Copy)]
pub struct Act {
    pub next: Next,
    pub timer: Timer,
    pub count: Count,
    pub mark: Mark,
    pub exit: ExitInfo,
    pub send: Send,
    pub first: Indication,
    pub second: Indication,
    pub cell: bool,
    pub cache: Cache,
    pub item: bool,
}

// A row that changes, sends and shows nothing: what the others differ from.
const NOTHING: Act = Act {
    next: Next::Stays,
    timer: Timer::Runs,
    count: Count::Same,
    mark: Mark::Same,
    exit: ExitInfo::Same,
    send: Send::Nothing,
    first: Indication::Nothing,
    second: Indication::Nothing,
    cell: false,
    cache: Cache::Same,
    item: false,
};

pub fn ends(send: Send, show: Indication) -> Act
    ensures { result ≡ ended send show }
{
    Act {
        next: Next::Ends,
        send,
        first: show,
        ..NOTHING
    }
}

// An Abort of ours is sent and indicated.
pub fn aborts(reason: u8) -> Act
    ensures { result ≡ aborted reason }
{
    ends(
        Send::Abort(PROVIDER, reason),
        Indication::Abort(PROVIDER, reason),
    )
}

// An Abort of ours of which the user learns nothing.
pub fn aborts_unseen(reason: u8) -> Act
    ensures { result ≡ aborted_unseen reason }
{
    ends(Send::Abort(PROVIDER, reason), Indication::Nothing)
}

pub fn keeps(send: Send) -> Act
    ensures { result ≡ kept send }
{
    Act { send, ..NOTHING }
}

pub fn resends(mark: Mark, send: Send) -> Act
    ensures { result ≡ resent mark send }
{
    Act {
        timer: Timer::R,
        count: Count::RcrUp,
        mark,
        send,
        ..NOTHING
    }
}

// The initiator takes a hold-on Ack.
pub fn held_on() -> Act
    ensures { result ≡ held_on }
{
    Act {
        timer: Timer::Stop,
        mark: Mark::HoldOn,
        first: Indication::Confirm(true),
        ..NOTHING
    }
}

// The responder sends one.
pub fn holds_on() -> Act
    ensures { result ≡ holding_on }
{
    Act {
        next: Next::Goes(State::RResultWait),
        timer: Timer::Stop,
        mark: Mark::HoldOnSent,
        send: Send::HoldOn(false),
        ..NOTHING
    }
}

// The user has the turn.
pub fn waits(next: Next, count: Count) -> Act
    ensures { result ≡ waiting next count }
{
    Act {
        next,
        timer: Timer::A,
        count,
        ..NOTHING
    }
}

// The initiator takes a Result.
pub fn takes(first: Indication, second: Indication) -> Act
    ensures { result ≡ taken first second }
{
    Act {
        first,
        second,
        item: true,
        ..waits(Next::Goes(State::IResultRespWait), Count::AecZero)
    }
}

// The last Ack.
pub fn acks(state: State, exit: ExitInfo) -> Act
    ensures { result ≡ acked state exit }
{
    Act {
        next: Next::Goes(state),
        timer: Timer::W,
        exit,
        send: Send::LastAck(false),
        ..NOTHING
    }
}

// The message is kept in the record's cell.
fn stores(state: State, send: Send, item: bool) -> Act
    ensures { result ≡ stored state Timer.Runs Count.Same send Cache.Same item }
{
    Act {
        next: Next::Goes(state),
        send,
        cell: true,
        item,
        ..NOTHING
    }
}

// The first Invoke or Result.
pub fn sends(state: State, send: Send) -> Act
    ensures { result ≡ sent state send }
{
    Act {
        timer: Timer::R,
        count: Count::RcrZero,
        ..stores(state, send, false)
    }
}

// An Invoke to be verified.
pub fn verifies(state: State, cache: Cache) -> Act
    ensures { result ≡ verifying state cache }
{
    Act {
        timer: Timer::Stop,
        cache,
        ..stores(state, Send::Tidve(false), true)
    }
}

// The responder's user is shown an Invoke.
pub fn shows(state: State, verified: bool, cache: Cache) -> Act
    ensures { result ≡ shown state verified cache }
{
    Act {
        first: Indication::Invoke(verified),
        cache,
        item: !verified,
        ..waits(Next::Goes(state), Count::AecZero)
    }
}
