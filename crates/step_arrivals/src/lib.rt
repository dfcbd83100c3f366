// What a received PDU is to the engine (01, "TIDs" and "Events"): whom it names, which event it is, what it brings.
#![tactic(auto)]

ghost use Rattle.std.specs.Prelude.{◌≡◌, ◌≤◌, length};
ghost use Rattle.codec_items.specs.Unknown.{no_unknown};
ghost use Rattle.codec_pdu.specs.Pdu.{unknown_of};
ghost use Rattle.codec_pdu.specs.Brief.{as_pdu};
ghost use Rattle.codec_reading.specs.Read.{pdu_of};
ghost use Rattle.step_arrivals.specs.Arrivals.{tid_of, name_of, event_of, cause_of, invokes_us, is_tidve, wanted_of, arrived_of};

use base_layout::TID_COUNT;
use base_tids::RcvTid;
use codec_items::Unknown;
use codec_pdu::{Brief, Kind};
use row_choice::Arrived;
use row_events::Event;
use table_record::Role;

// Type and reason of an Abort.
#[derive(Clone, Copy)]
pub struct Cause {
    pub abort_type: u8,
    pub reason: u8,
}

// What an Invoke asks for.
#[derive(Clone, Copy)]
pub struct Wanted {
    pub class: u8,
    pub up: bool,
    pub wrong_version: bool,
    pub ttr_clear: bool,
    pub tidnew: bool,
}

// Of any other PDU than an Abort, whose row reads neither.
const NO_CAUSE: Cause = Cause {
    abort_type: 0,
    reason: 0,
};

// Of any other PDU than an Invoke.
const NO_WANT: Wanted = Wanted {
    class: 0,
    up: false,
    wrong_version: false,
    ttr_clear: false,
    tidnew: false,
};

// The TID with its top bit, also of a malformed PDU.
#[tactic(auto, unfolding(crate::specs::Arrivals::tid_of))]
pub fn tid_of(s: &[u8]) -> RcvTid
    requires { 3 ≤ length s.now }
    ensures { result.0 ≡ tid_of s.now }
{
    RcvTid::received(s[1], s[2])
}

// The role and the TID of 15 bits of the record that the octets name, malformed or not; a shorter PDU and an ignored one name none.
#[tactic(auto, unfolding(crate::specs::Arrivals::name_of))]
pub fn named_by(s: &[u8]) -> Option<(Role, u16)>
    ensures { result ≡ name_of s.now }
{
    if s.len() < 3 {
        return None;
    }
    let typ = s[0] / 8 % 16;
    let tid = tid_of(s);
    if tid.0 < TID_COUNT {
        if typ == 2 {
            return None;
        }
        return Some((Role::Responder, tid.0 % TID_COUNT));
    }
    if typ == 1 {
        return None;
    }
    Some((Role::Initiator, tid.0 % TID_COUNT))
}

// The event that a PDU of this kind is to a live record. A refused length never comes here: it counts as malformed.
#[tactic(auto, unfolding(crate::specs::Arrivals::event_of))]
pub fn event_of(kind: Kind) -> Event
    ensures { result ≡ event_of kind }
{
    match kind {
        Kind::Invoke { rid, .. } => { if rid { Event::InvokeRid } else { Event::Invoke } }
        Kind::Result { ttr: true, rid, .. } => {
            if rid { Event::ResultRid } else { Event::Result }
        }
        Kind::Result { rid, .. } => {
            if rid {
                Event::ResultCutRid
            } else {
                Event::ResultCut
            }
        }
        Kind::Ack { tve: true, rid } => { if rid { Event::TidAckRid } else { Event::TidAck } }
        Kind::Ack { .. } => Event::PlainAck,
        Kind::Abort { .. } => Event::ReceivedAbort,
        Kind::SegInvoke { .. } | Kind::SegResult { .. } | Kind::Nack { .. } => Event::Segmented,
        Kind::Wrong(_) | Kind::Refused(_) => Event::MalformedPdu,
    }
}

// Type and reason of an Abort; 0 and 0 of any other PDU.
#[tactic(auto, unfolding(crate::specs::Arrivals::cause_of))]
pub fn abort_of(kind: Kind) -> Cause
    ensures { result ≡ cause_of kind }
{
    match kind {
        Kind::Abort { abort_type, reason } => Cause { abort_type, reason },
        _ => NO_CAUSE,
    }
}

// Whether the octets are an Invoke with top bit 0, malformed or not.
#[tactic(auto, unfolding(crate::specs::Arrivals::invokes_us))]
fn invokes_us(s: &[u8]) -> bool
    ensures { result ≡ invokes_us s.now }
{
    3 <= s.len() && s[0] / 8 % 16 == 1 && tid_of(s).0 < TID_COUNT
}

// Whether a PDU is an Ack with TIDve, top bit 1.
#[tactic(auto, unfolding(crate::specs::Arrivals::is_tidve))]
fn is_tidve(kind: Kind, tid: RcvTid) -> bool
    ensures { result ≡ is_tidve kind tid.0 }
{
    match kind {
        Kind::Ack { tve, .. } => tve && TID_COUNT <= tid.0,
        _ => false,
    }
}

// What an Invoke asks for; nothing of any other PDU.
#[tactic(auto, unfolding(crate::specs::Arrivals::wanted_of))]
pub fn wanted_by(kind: Kind) -> Wanted
    ensures { result ≡ wanted_of kind }
{
    match kind {
        Kind::Invoke {
            ttr,
            version,
            tidnew,
            up,
            class,
            ..
        } => Wanted {
            class,
            up,
            wrong_version: 0 < version,
            ttr_clear: !ttr,
            tidnew,
        },
        _ => NO_WANT,
    }
}

// What the octets s and the PDU read from them are where no live record is named.
#[tactic(auto, unfolding(crate::specs::Arrivals::arrived_of, codec_pdu::specs::Brief::as_pdu))]
pub fn arrived(s: &[u8], b: Brief, full: bool, valid: bool) -> Arrived
    ensures { result ≡ arrived_of s.now (as_pdu b) full valid }
{
    let want = wanted_by(b.kind);
    Arrived {
        invoke: invokes_us(s),
        tidve: is_tidve(b.kind, b.tid),
        malformed: !codec_pdu::sound(b.kind),
        class: want.class,
        wrong_version: want.wrong_version,
        ttr_clear: want.ttr_clear,
        too_long: base_layout::CELL_SIZE < b.len,
        full,
        tidnew: want.tidnew,
        valid,
    }
}

// No unknown item: no PDU came.
pub fn no_item() -> Unknown
    ensures { result ≡ no_unknown }
{
    Unknown {
        identity: 0,
        place: 0,
    }
}

// The first unknown item of the PDU in s, whatever the engine does with it.
#[tactic(auto, unfolding(codec_pdu::specs::Brief::brief_of))]
pub fn unknown_item(s: &[u8]) -> Unknown
    ensures { result ≡ unknown_of (pdu_of s.now) }
{
    codec_reading::brief(s).unknown
}
