// A turn: the right-hand side of a row applied to a record.
#![tactic(auto)]

ghost use Rattle.std.specs.Prelude.{◌≡◌, ◌+◌, ◌≤◌, length};
ghost use Rattle.base_layout.specs.Layout.{header_size, time_bound};
ghost use Rattle.table_layout.specs.Table.{intervals_of};
ghost use Rattle.row_turns.specs.Turns.{up_of, rcr_after, aec_after, hold_on_after, tidok_sent_after, hold_on_sent_after, exit_len_after, stores_exit, len_after, stopped_at, deadline_after, limit_after, unknown_after, cost_of, sent_after, new_record, moved_to, state_after, ends_by, record_after, turn_of};

use row_columns::{Act, Cache, Count, ExitInfo, Indication, Mark, Next, Send, Timer};
use table_layout::Settings;
use table_record::{Aec, Rcr, Record, State};

// What came with the event: the time, an abort's type and reason, the lengths of the message and of the exit information,
// and the identity of the first unknown item of the PDU that came, 0 where none came or it has none.
#[derive(Clone, Copy)]
pub struct Given {
    pub time: u64,
    pub kind: u8,
    pub reason: u8,
    pub len: u32,
    pub exit_len: u8,
    pub unknown: u8,
}

// The record afterwards (free where it ended), what is sent and indicated in order, whether the message goes to the cell
// and the exit information to the record, and what becomes of LastTID.
#[derive(Clone, Copy)]
pub struct Turn {
    pub after: Record,
    pub send: Send,
    pub first: Indication,
    pub second: Indication,
    pub cell: bool,
    pub exit: bool,
    pub cache: Cache,
}

// No counter passes 8.
#[tactic(auto, unfolding(crate::specs::Turns::up_of))]
fn up(n: u8) -> u8
    ensures { result ≡ up_of n }
{
    if n < 8 { n + 1 } else { n }
}

fn rcr_after(c: Count, rcr: Rcr) -> Rcr
    ensures { result ≡ rcr_after c rcr }
{
    match c {
        Count::RcrZero => Rcr(0),
        Count::RcrUp => Rcr(up(rcr.0)),
        _ => rcr,
    }
}

fn aec_after(c: Count, aec: Aec) -> Aec
    ensures { result ≡ aec_after c aec }
{
    match c {
        Count::AecZero => Aec(0),
        Count::AecUp => Aec(up(aec.0)),
        _ => aec,
    }
}

fn hold_on_after(m: Mark, was: bool) -> bool
    ensures { result ≡ hold_on_after m was }
{
    matches!(m, Mark::HoldOn) || was
}

fn tidok_sent_after(m: Mark, was: bool) -> bool
    ensures { result ≡ tidok_sent_after m was }
{
    matches!(m, Mark::TidokSent) || was
}

fn hold_on_sent_after(m: Mark, was: bool) -> bool
    ensures { result ≡ hold_on_sent_after m was }
{
    matches!(m, Mark::HoldOnSent) || was
}

fn exit_len_after(x: ExitInfo, was: u8, given: u8) -> u8
    ensures { result ≡ exit_len_after x was given }
{
    match x {
        ExitInfo::Same => was,
        ExitInfo::Given => given,
        ExitInfo::Empty => 0,
    }
}

fn stores_exit(x: ExitInfo) -> bool
    ensures { result ≡ stores_exit x }
{
    matches!(x, ExitInfo::Given)
}

fn len_after(cell: bool, was: u32, given: u32) -> u32
    ensures { result ≡ len_after cell was given }
{
    if cell { given } else { was }
}

// The deadline of a record whose timer is stopped, or not started: none, or the waiting limit.
#[tactic(auto, unfolding(crate::specs::Turns::stopped_at))]
fn stopped(time: u64, limit: u32) -> u64
    requires { time ≤ time_bound }
    ensures { result ≡ stopped_at time limit }
{
    if limit == 0 {
        0
    } else {
        time + u64::from(limit)
    }
}

fn deadline_after(t: Timer, was: u64, time: u64, s: Settings, r: u32) -> u64
    requires { time ≤ time_bound }
    ensures { result ≡ deadline_after t was time s r }
{
    match t {
        Timer::Runs => was,
        Timer::Stop => stopped(time, s.limit),
        Timer::A => time + u64::from(s.a),
        Timer::W => time + u64::from(s.w),
        Timer::R => time + u64::from(r),
    }
}

// The waiting limit in force: the one that is the deadline.
fn limit_after(t: Timer, was: u32, limit: u32) -> u32
    ensures { result ≡ limit_after t was limit }
{
    match t {
        Timer::Runs => was,
        Timer::Stop => limit,
        Timer::A | Timer::W | Timer::R => 0,
    }
}

// The identity that the record's Acks name.
fn unknown_after(item: bool, was: u8, came: u8) -> u8
    ensures { result ≡ unknown_after item was came }
{
    if item { came } else { was }
}

// What a PDU adds to the octets that a request has sent: an Invoke four and its data, a TIDok three.
fn cost_of(send: Send, len: u32) -> u64
    ensures { result ≡ cost_of send len }
{
    match send {
        Send::Invoke(_) => 4 + u64::from(len),
        Send::Tidok(_) => 3,
        _ => 0,
    }
}

// The octets that a request has sent; on a made-up table the count stops at its most.
#[tactic(auto, using(crate::proofs::Costs::cost_most), unfolding(crate::specs::Turns::sent_after))]
fn sent_after(send: Send, len: u32, was: u32, most: u32) -> u32
    ensures { result ≡ sent_after (was + cost_of send len) most }
{
    let sum = u64::from(was) + cost_of(send, len);
    if sum < u64::from(most) {
        sum as u32
    } else {
        most
    }
}

// The record that an opening starts from; with zeros, a free record.
#[tactic(auto, unfolding(crate::specs::Turns::new_record))]
pub fn new_record(peer: u8, tid: u16, user_ack: bool, tidnew: bool) -> Record
    ensures { result ≡ new_record peer tid user_ack tidnew }
{
    Record {
        state: State::Free,
        peer,
        tid,
        user_ack,
        hold_on: false,
        tidok_sent: false,
        hold_on_sent: false,
        tidnew,
        rcr: Rcr(0),
        aec: Aec(0),
        exit_len: 0,
        deadline: 0,
        len: 0,
        limit: 0,
        unknown: 0,
        sent: 0,
    }
}

// The record in its next state.
#[tactic(auto, unfolding(crate::specs::Turns::moved_to))]
fn moved_to(state: State, a: Act, r: Record, g: Given, s: Settings, t: &[u8]) -> Record
    requires { (header_size ≤ length t.now) × (g.time ≤ time_bound) }
    ensures { result ≡ moved_to state a r g s (intervals_of t.now) }
{
    let rcr = rcr_after(a.count, r.rcr);
    let len = len_after(a.cell, r.len, g.len);
    let class = state.class();
    let rows = table_layout::intervals_of(t);
    let again = table_tids::interval(rows, class, rcr);
    Record {
        state,
        hold_on: hold_on_after(a.mark, r.hold_on),
        tidok_sent: tidok_sent_after(a.mark, r.tidok_sent),
        hold_on_sent: hold_on_sent_after(a.mark, r.hold_on_sent),
        rcr,
        aec: aec_after(a.count, r.aec),
        exit_len: exit_len_after(a.exit, r.exit_len, g.exit_len),
        deadline: deadline_after(a.timer, r.deadline, g.time, s, again),
        len,
        limit: limit_after(a.timer, r.limit, s.limit),
        unknown: unknown_after(a.item, r.unknown, g.unknown),
        sent: sent_after(a.send, len, r.sent, table_record::sent_most(s.rcr_max)),
        ..r
    }
}

fn state_after(n: Next, was: State) -> State
    ensures { result ≡ state_after n was }
{
    match n {
        Next::Stays => was,
        Next::Ends => State::Free,
        Next::Goes(state) => state,
    }
}

fn ends(n: Next) -> bool
    ensures { result ≡ ends_by n }
{
    matches!(n, Next::Ends)
}

// One call of `moved_to`, so that the array of intervals lies on the stack once.
#[tactic(auto, using(crate::proofs::After::ended, crate::proofs::After::moved))]
fn record_after(a: Act, r: Record, g: Given, s: Settings, t: &[u8]) -> Record
    requires { (header_size ≤ length t.now) × (g.time ≤ time_bound) }
    ensures { result ≡ record_after a.next a r g s (intervals_of t.now) }
{
    if ends(a.next) {
        return new_record(0, 0, false, false);
    }
    moved_to(state_after(a.next, r.state), a, r, g, s, t)
}

// The turn of a record under a row, or of a new record.
#[tactic(auto, unfolding(crate::specs::Turns::turn_of))]
pub fn turn_of(a: Act, r: Record, g: Given, s: Settings, t: &[u8]) -> Turn
    requires { (header_size ≤ length t.now) × (g.time ≤ time_bound) }
    ensures { result ≡ turn_of a r g s (intervals_of t.now) }
{
    Turn {
        after: record_after(a, r, g, s, t),
        send: a.send,
        first: a.first,
        second: a.second,
        cell: a.cell,
        exit: stores_exit(a.exit),
        cache: a.cache,
    }
}
