// Reading a PDU (WAP-224, 8.2 and 8.3).
#![tactic(auto)]

ghost use Rattle.std.specs.Prelude.{◌≡◌, ◌≤◌, length, IfOk};
ghost use Rattle.codec_pdu.specs.Brief.{brief_of};
ghost use Rattle.codec_reading.specs.Read.{kind_of, head_of, long_head, good_head, bad_head, pdu_of};
ghost use Rattle.codec_reading.specs.Brief.{end_after_is, place_after, places_after, start_of, whole_brief, bytes_left, ended_brief, items_at};

use base_numbers::{Malformed, Refusal};
use base_tids::RcvTid;
use codec_items::Sought;
use codec_pdu::{Brief, Kind};

// The fixed header: the kind, whether items follow, the TID and the place after it.
#[derive(Clone, Copy)]
pub struct Head {
    pub kind: Kind,
    pub con: bool,
    pub tid: RcvTid,
    pub end: usize,
}

// The places of the first Info item and of the first item that isn't known.
#[derive(Clone, Copy)]
pub struct Places {
    pub info: Option<usize>,
    pub unknown: Option<usize>,
}

// What the type, the flags and the octet after the TID say; class 3 and abort types over 1 are reserved.
#[tactic(auto, unfolding(crate::specs::Read::kind_of))]
fn kind_of(typ: u8, flags: u8, x: u8) -> Kind
    ensures { result ≡ kind_of typ flags x }
{
    let gtr = flags / 4 % 2 == 1;
    let ttr = flags / 2 % 2 == 1;
    let rid = flags % 2 == 1;
    let packet = x;
    match typ {
        1 if x % 4 == 3 => Kind::Wrong(Malformed::D5),
        1 => Kind::Invoke {
            gtr,
            ttr,
            rid,
            version: x / 64,
            tidnew: x / 32 % 2 == 1,
            up: x / 16 % 2 == 1,
            class: x % 4,
        },
        2 => Kind::Result { gtr, ttr, rid },
        3 => Kind::Ack { tve: gtr, rid },
        4 if 1 < flags => Kind::Wrong(Malformed::D6),
        4 => Kind::Abort {
            abort_type: flags,
            reason: x,
        },
        5 => Kind::SegInvoke {
            gtr,
            ttr,
            rid,
            packet,
        },
        6 => Kind::SegResult {
            gtr,
            ttr,
            rid,
            packet,
        },
        7 => Kind::Nack {
            rid,
            count: x,
            list: 4,
        },
        _ => Kind::Wrong(Malformed::D2),
    }
}

fn bad_head(d: Malformed) -> Head
    ensures { result ≡ bad_head d }
{
    Head {
        kind: Kind::Wrong(d),
        con: false,
        tid: RcvTid(0),
        end: 0,
    }
}

// The header of a type and its octet x, up to `end`.
fn good_head(s: &[u8], typ: u8, x: u8, end: usize) -> Head
    requires { 3 ≤ length s.now }
    ensures { result ≡ good_head s.now typ x end }
{
    Head {
        kind: kind_of(typ, s[0] % 8, x),
        con: 128 <= s[0],
        tid: RcvTid::received(s[1], s[2]),
        end,
    }
}

// A fixed header of four octets or, of a Nack, of its list too.
fn long_head(s: &[u8]) -> Head
    requires { 3 ≤ length s.now }
    ensures { result ≡ long_head s.now }
{
    if s.len() < 4 {
        return bad_head(Malformed::D1);
    }
    let typ = s[0] / 8 % 16;
    let x = s[3];
    let end = if typ == 7 { usize::from(x) + 4 } else { 4 };
    if s.len() < end {
        return bad_head(Malformed::D1);
    }
    good_head(s, typ, x, end)
}

// The fixed header, malformed in the order D2, D1, D5, D6.
#[tactic(auto, unfolding(crate::specs::Read::head_of))]
fn head_of(s: &[u8]) -> Head
    requires { 1 ≤ length s.now }
    ensures { result ≡ head_of s.now }
{
    let typ = s[0] / 8 % 16;
    if typ == 0 || 7 < typ {
        bad_head(Malformed::D2)
    } else if s.len() < 3 {
        bad_head(Malformed::D1)
    } else if typ == 2 {
        good_head(s, 2, 0, 3)
    } else if typ == 3 {
        good_head(s, 3, 0, 3)
    } else {
        long_head(s)
    }
}

// The place after the items that follow a sound header.
#[tactic(auto, unfolding(crate::specs::Brief::end_after_is))]
fn end_after(s: &[u8], head: Head) -> Result<usize, Malformed>
    ensures { result ≡ end_after_is s.now head }
{
    if head.con {
        codec_items::end_from(s, head.end, 16)
    } else {
        Ok(head.end)
    }
}

// The place of the first item sought after a sound header.
#[tactic(auto, unfolding(crate::specs::Brief::place_after))]
fn place_after(s: &[u8], head: Head, sought: Sought) -> Option<usize>
    ensures { result ≡ place_after s.now head sought }
{
    if head.con {
        codec_items::place_from(s, head.end, 16, sought)
    } else {
        None
    }
}

// Both places.
#[tactic(auto, unfolding(crate::specs::Brief::places_after))]
fn places_after(s: &[u8], head: Head) -> Places
    ensures { result ≡ places_after s.now head }
{
    Places {
        info: place_after(s, head, Sought::InfoItem),
        unknown: place_after(s, head, Sought::UnknownItem),
    }
}

// Whether octets are left after the items of a PDU without user data.
fn bytes_left(kind: Kind, left: usize) -> bool
    ensures { result ≡ bytes_left kind left }
{
    codec_pdu::bare(kind) && 0 < left
}

// Where the user data starts, after the items' end; 0 where there can be none.
fn start_of(kind: Kind, end: usize) -> usize
    ensures { result ≡ start_of kind end }
{
    if codec_pdu::bare(kind) { 0 } else { end }
}

// The brief of a sound header whose items end well, at `end`.
#[tactic(auto, unfolding(crate::specs::Brief::whole_brief))]
fn whole(s: &[u8], head: Head, at: Places, end: usize) -> Brief
    requires { end ≤ length s.now }
    ensures { result ≡ whole_brief s.now head at end }
{
    Brief {
        kind: head.kind,
        tid: head.tid,
        info: codec_items::info_in(s, at.info),
        start: start_of(head.kind, end),
        len: s.len() - end,
        unknown: codec_items::unknown_in(s, at.unknown),
    }
}

// The brief of a sound header and the items after it, which end at `end`.
#[tactic(auto, unfolding(crate::specs::Brief::ended_brief))]
fn ended(s: &[u8], head: Head, at: Places, end: Result<usize, Malformed>) -> Brief
    requires { IfOk end (λ n. n ≤ length s.now) }
    ensures { result ≡ ended_brief s.now head at end }
{
    match end {
        Err(d) => codec_pdu::blank_brief(Kind::Wrong(d)),
        Ok(end) if bytes_left(head.kind, s.len() - end) => {
            codec_pdu::blank_brief(Kind::Wrong(Malformed::D7))
        }
        Ok(end) => whole(s, head, at, end),
    }
}

// The brief of the PDU that a slice holds, or how it is malformed, or refusal 11. The walks come first, so that less is kept on the stack below them.
#[tactic(auto, using(crate::proofs::Briefs::after_inside, crate::proofs::Briefs::brief_sound, crate::proofs::Briefs::brief_unsound), unfolding(crate::specs::Read::pdu_of))]
pub fn brief(s: &[u8]) -> Brief
    ensures { result ≡ brief_of (pdu_of s.now) }
{
    if s.is_empty() || base_layout::DATAGRAM_BOUND < s.len() {
        return codec_pdu::blank_brief(Kind::Refused(Refusal::WrongLength));
    }
    let head = head_of(s);
    let at = places_after(s, head);
    let end = end_after(s, head);
    if codec_pdu::sound(head.kind) {
        ended(s, head, at, end)
    } else {
        codec_pdu::blank_brief(head.kind)
    }
}

// The place of the first item.
#[tactic(auto, unfolding(crate::specs::Brief::items_at))]
pub fn items_at(s: &[u8]) -> Option<usize>
    ensures { result ≡ items_at s.now }
{
    if s.is_empty() {
        return None;
    }
    let head = head_of(s);
    head.con.then_some(head.end)
}
