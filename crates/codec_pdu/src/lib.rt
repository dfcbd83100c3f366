// A PDU by value (WAP-224, 8.3): its kind with the fields of its fixed header, its items and its user data.
#![tactic(auto)]

ghost use Rattle.std.specs.Prelude.{◌≡◌};
ghost use Rattle.codec_pdu.specs.Pdu.{sound_of, bare_of, blank_pdu};
ghost use Rattle.codec_pdu.specs.Brief.{brief_of};

use base_numbers::{Malformed, Refusal};
use base_tids::RcvTid;
use codec_items::{Info, Item, Unknown};

// The kind of a PDU with what its fixed header says; or why there is none.
#[derive(Clone, Copy)]
pub enum Kind {
    Invoke {
        gtr: bool,
        ttr: bool,
        rid: bool,
        version: u8,
        tidnew: bool,
        up: bool,
        class: u8,
    },
    Result {
        gtr: bool,
        ttr: bool,
        rid: bool,
    },
    Ack {
        tve: bool,
        rid: bool,
    },
    Abort {
        abort_type: u8,
        reason: u8,
    },
    SegInvoke {
        gtr: bool,
        ttr: bool,
        rid: bool,
        packet: u8,
    },
    SegResult {
        gtr: bool,
        ttr: bool,
        rid: bool,
        packet: u8,
    },
    Nack {
        rid: bool,
        count: u8,
        list: usize,
    },
    Wrong(Malformed),
    Refused(Refusal),
}

// A PDU: its items are the first `count` of the list; its user data lies at `start`.
#[derive(Clone, Copy)]
pub struct Pdu {
    pub kind: Kind,
    pub tid: u16,
    pub count: usize,
    pub list: [Item; 16],
    pub start: usize,
    pub len: usize,
}

// What the engine takes of a PDU: all but its items, and of these the first Info item and the first that isn't known.
#[derive(Clone, Copy)]
pub struct Brief {
    pub kind: Kind,
    pub tid: RcvTid,
    pub info: Info,
    pub start: usize,
    pub len: usize,
    pub unknown: Unknown,
}

// Whether there is a PDU of this kind.
#[tactic(auto, unfolding(crate::specs::Pdu::sound_of))]
pub fn sound(kind: Kind) -> bool
    ensures { result ≡ sound_of kind }
{
    !matches!(kind, Kind::Wrong(_) | Kind::Refused(_))
}

// Whether nothing may follow the items.
#[tactic(auto, unfolding(crate::specs::Pdu::bare_of))]
pub fn bare(kind: Kind) -> bool
    ensures { result ≡ bare_of kind }
{
    matches!(
        kind,
        Kind::Ack { .. } | Kind::Abort { .. } | Kind::Nack { .. }
    )
}

// The brief of no PDU, for the reason that the kind says.
#[tactic(auto, unfolding(crate::specs::Pdu::blank_pdu, crate::specs::Brief::brief_of, crate::specs::Pdu::info_of, crate::specs::Pdu::unknown_of, codec_items::specs::Info::info_from, codec_items::specs::Unknown::unknown_from, codec_items::specs::Info::first_from))]
pub fn blank_brief(kind: Kind) -> Brief
    ensures { result ≡ brief_of (blank_pdu kind) }
{
    Brief {
        kind,
        tid: RcvTid(0),
        info: Info { start: 0, len: 0 },
        start: 0,
        len: 0,
        unknown: Unknown {
            identity: 0,
            place: 0,
        },
    }
}
