// A record: its types, and its octets.
#![tactic(auto)]

ghost use Rattle.std.specs.Prelude.{◌≡◌, ◌+◌, ◌*◌, ◌≤◌, ◌<◌, length};
ghost use Rattle.base_layout.specs.Layout.{fields_size, tid_count};
ghost use Rattle.table_record.specs.Record.{role_of, class_of, state_number, role_number, state_of, flags_of, sent_most, decoded, octets_of, send_tid, rcv_tid};

use base_octets::Number;
use base_tids::{RcvTid, SendTid};

// 01, "Events": which end of the transaction a record is.
#[derive(Clone, Copy, PartialEq, Eq)]
pub enum Role {
    Initiator,
    Responder,
}

// 01, "Events": the states of each role, each with its class, so that a state is always one for its role and class.
#[derive(Clone, Copy, PartialEq, Eq)]
pub enum State {
    Free,
    IResultWait1,
    IResultWait2,
    IResultRespWait,
    IWaitTimeout,
    RTidokWait1,
    RTidokWait2,
    RInvokeRespWait1,
    RInvokeRespWait2,
    RResultWait,
    RResultRespWait,
    RWaitTimeout,
}

// 01, "Events": how many Invoke, TIDok or Result PDUs were sent after the first.
#[derive(Clone, Copy)]
pub struct Rcr(pub u8);

// 01, "Events": how many acknowledgement intervals the user let pass.
#[derive(Clone, Copy)]
pub struct Aec(pub u8);

// A record without its exit information, which stays in the table. The deadline 0 is no timer; `limit` is the waiting limit that the deadline is, 0 where it is none;
// `unknown` the identity of the unknown item that its Acks name, 0 none; `sent` the octets that a request sent before its result.
#[derive(Clone, Copy)]
pub struct Record {
    pub state: State,
    pub peer: u8,
    pub tid: u16,
    pub user_ack: bool,
    pub hold_on: bool,
    pub tidok_sent: bool,
    pub hold_on_sent: bool,
    pub tidnew: bool,
    pub rcr: Rcr,
    pub aec: Aec,
    pub exit_len: u8,
    pub deadline: u64,
    pub len: u32,
    pub limit: u32,
    pub unknown: u8,
    pub sent: u32,
}

impl State {
    pub fn role(self) -> Role
        ensures { result ≡ role_of self }
    {
        match self {
            State::Free
            | State::IResultWait1
            | State::IResultWait2
            | State::IResultRespWait
            | State::IWaitTimeout => Role::Initiator,
            _ => Role::Responder,
        }
    }

    // The class of its transaction; a free record has none, 0.
    pub fn class(self) -> u8
        ensures { result ≡ class_of self }
    {
        match self {
            State::Free => 0,
            State::IResultWait1
            | State::RTidokWait1
            | State::RInvokeRespWait1
            | State::RWaitTimeout => 1,
            _ => 2,
        }
    }
}

// The number of a state in its octet; a free record is zero.
impl From<State> for u8 {
    ghost from_gives = { λ it number. number ≡ state_number it };

    fn from(it: State) -> u8 {
        match it {
            State::Free => 0,
            State::IResultWait1 => 1,
            State::IResultWait2 => 2,
            State::IResultRespWait => 3,
            State::IWaitTimeout => 4,
            State::RTidokWait1 => 5,
            State::RTidokWait2 => 6,
            State::RInvokeRespWait1 => 7,
            State::RInvokeRespWait2 => 8,
            State::RResultWait => 9,
            State::RResultRespWait => 10,
            State::RWaitTimeout => 11,
        }
    }
}

// The state of a number; a number that is none counts as free.
#[tactic(auto, unfolding(crate::specs::Record::state_of))]
fn state_of(n: u8) -> State
    ensures { result ≡ state_of n }
{
    match n {
        1 => State::IResultWait1,
        2 => State::IResultWait2,
        3 => State::IResultRespWait,
        4 => State::IWaitTimeout,
        5 => State::RTidokWait1,
        6 => State::RTidokWait2,
        7 => State::RInvokeRespWait1,
        8 => State::RInvokeRespWait2,
        9 => State::RResultWait,
        10 => State::RResultRespWait,
        11 => State::RWaitTimeout,
        _ => State::Free,
    }
}

impl Role {
    // The TID that a record of this role and TID writes towards its peer.
    pub fn send_tid(self, tid: u16) -> SendTid
        requires { tid < tid_count }
        ensures { result.0 ≡ send_tid self tid }
    {
        match self {
            Role::Initiator => SendTid(tid),
            Role::Responder => SendTid(tid + base_layout::TID_COUNT),
        }
    }

    // The TID that its peer writes towards it.
    pub fn rcv_tid(self, tid: u16) -> RcvTid
        requires { tid < tid_count }
        ensures { result.0 ≡ rcv_tid self tid }
    {
        match self {
            Role::Initiator => RcvTid(tid + base_layout::TID_COUNT),
            Role::Responder => RcvTid(tid),
        }
    }
}

// The number of a role in the C interface.
impl From<Role> for u64 {
    ghost from_gives = { λ it number. number ≡ role_number it };

    fn from(it: Role) -> u64 {
        match it {
            Role::Initiator => 0,
            Role::Responder => 1,
        }
    }
}

// The most that a record may have sent: 1 + RCR_MAX Invokes with full data.
pub fn sent_most(rcr_max: u8) -> u32
    ensures { result ≡ sent_most rcr_max }
{
    (1 + u32::from(rcr_max)) * (base_layout::OUTPUT_LEAST as u32)
}

#[tactic(auto, using(crate::proofs::Flags::bit_below), unfolding(crate::specs::Record::flags_of))]
fn flags_of(r: Record) -> u8
    ensures { result ≡ flags_of r }
{
    u8::from(r.user_ack)
        + 2 * u8::from(r.hold_on)
        + 4 * u8::from(r.tidok_sent)
        + 8 * u8::from(r.hold_on_sent)
        + 16 * u8::from(r.tidnew)
}

// The record of 29 octets.
#[tactic(auto, unfolding(crate::specs::Record::decoded))]
pub fn decode(w: &[u8]) -> Record
    requires { fields_size ≤ length w.now }
    ensures { result ≡ decoded w.now }
{
    let f = w[base_layout::FLAGS_OFFSET];
    Record {
        state: state_of(w[0]),
        peer: w[base_layout::PEER_OFFSET],
        tid: u16::get(w, base_layout::TID_OFFSET),
        user_ack: f % 2 == 1,
        hold_on: f / 2 % 2 == 1,
        tidok_sent: f / 4 % 2 == 1,
        hold_on_sent: f / 8 % 2 == 1,
        tidnew: f / 16 % 2 == 1,
        rcr: Rcr(w[base_layout::RCR_OFFSET]),
        aec: Aec(w[base_layout::AEC_OFFSET]),
        exit_len: w[base_layout::EXIT_LEN_OFFSET],
        deadline: u64::get(w, base_layout::DEADLINE_OFFSET),
        len: u32::get(w, base_layout::LEN_OFFSET),
        limit: u32::get(w, base_layout::LIMIT_OFFSET),
        unknown: w[base_layout::UNKNOWN_OFFSET],
        sent: u32::get(w, base_layout::SENT_OFFSET),
    }
}

// The 29 octets of a record.
pub fn encode(r: Record) -> [u8; base_layout::FIELDS_SIZE]
    ensures { result ≡ octets_of r }
{
    let s = u8::from(r.state);
    let t = r.tid.to_le_bytes();
    let d = r.deadline.to_le_bytes();
    let l = r.len.to_le_bytes();
    let m = r.limit.to_le_bytes();
    let n = r.sent.to_le_bytes();
    let f = flags_of(r);
    [
        s, r.peer, t[0], t[1], r.rcr.0, r.aec.0, f, r.exit_len, d[0], d[1], d[2], d[3], d[4], d[5],
        d[6], d[7], l[0], l[1], l[2], l[3], m[0], m[1], m[2], m[3], r.unknown, n[0], n[1], n[2],
        n[3],
    ]
}
