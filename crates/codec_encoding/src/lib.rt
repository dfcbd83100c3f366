// Writing a header and an item whose fields fit (WAP-224, 8.2 to 8.4): straight from their source into the output.
#![tactic(auto)]

ghost use Rattle.std.specs.Prelude.{◌≡◌, false, ◌+◌, ◌*◌, ◌≤◌, ◌<◌, length};
ghost use Rattle.base_lists.specs.Seq.{bit, put};
ghost use Rattle.codec_encoding.specs.Write.{type_number, flags_of, extra_of, header_of_is, three, item_octets, FitItem, FitKind};

use base_tids::SendTid;
use codec_items::Item;
use codec_pdu::Kind;

fn three_of(a: bool, b: bool, c: bool) -> u8
    ensures { (result ≡ three a b c) × (result < 8) }
{
    u8::from(a) * 4 + u8::from(b) * 2 + u8::from(c)
}

// Type and flags of a kind: the first octet without CON.
#[tactic(auto, unfolding(crate::specs::Write::flags_of, crate::specs::Write::type_number))]
fn first_octet(kind: Kind) -> u8
    requires { flags_of kind < 8 }
    ensures { (result ≡ type_number kind * 8 + flags_of kind) × (result < 64) }
{
    match kind {
        Kind::Invoke { gtr, ttr, rid, .. } => 8 + three_of(gtr, ttr, rid),
        Kind::Result { gtr, ttr, rid } => 16 + three_of(gtr, ttr, rid),
        Kind::Ack { tve, rid } => 24 + three_of(tve, false, rid),
        Kind::Abort { abort_type, .. } => 32 + abort_type,
        Kind::SegInvoke { gtr, ttr, rid, .. } => 40 + three_of(gtr, ttr, rid),
        Kind::SegResult { gtr, ttr, rid, .. } => 48 + three_of(gtr, ttr, rid),
        Kind::Nack { rid, .. } => 56 + u8::from(rid),
        Kind::Wrong(_) | Kind::Refused(_) => 0,
    }
}

// The octet after an Invoke's TID.
pub fn invoke_octet(version: u8, tidnew: bool, up: bool, class: u8) -> u8
    requires { (version < 4) × (class < 4) }
    ensures { result ≡ version * 64 + bit tidnew * 32 + bit up * 16 + class }
{
    version * 64 + u8::from(tidnew) * 32 + u8::from(up) * 16 + class
}

// Stores what stands after the TID, from place 3 of the output; the place after it.
#[tactic(auto, using(crate::proofs::Nacks::nack_length, crate::proofs::Nacks::nack_stored), unfolding(crate::specs::Write::FitKind, crate::specs::Write::extra_of, base_lists::specs::Seq::put))]
fn put_extra(out: &mut [u8], src: &[u8], kind: Kind) -> usize
    requires fit_kind { FitKind src.now kind }
    requires kind_in_bounds { 3 + length (extra_of src.now kind) ≤ length out.old }
    ensures { (result ≡ 3 + length (extra_of src.now kind)) × (out.new ≡ put out.old 3 (extra_of src.now kind)) }
{
    match kind {
        Kind::Invoke {
            version,
            tidnew,
            up,
            class,
            ..
        } => {
            out[3] = invoke_octet(version, tidnew, up, class);
            4
        }
        Kind::Abort { reason: octet, .. }
        | Kind::SegInvoke { packet: octet, .. }
        | Kind::SegResult { packet: octet, .. } => {
            out[3] = octet;
            4
        }
        Kind::Nack { count, list, .. } => {
            let n = usize::from(count);
            out[3] = count;
            base_lists::copy(&mut *out, 4, src, list, n);
            4 + n
        }
        Kind::Result { .. } | Kind::Ack { .. } | Kind::Wrong(_) | Kind::Refused(_) => 3,
    }
}

// Stores the fixed header at the start of the output; the place after it.
#[tactic(auto, using(crate::proofs::Headers::flags_small, crate::proofs::Headers::header_length_holds, crate::proofs::Headers::header_stored))]
pub fn put_header(out: &mut [u8], src: &[u8], con: bool, kind: Kind, tid: SendTid) -> usize
    requires fit_kind { FitKind src.now kind }
    requires tid_in_bounds { length (header_of_is src.now con kind tid.0) ≤ length out.old }
    ensures { (result ≡ length (header_of_is src.now con kind tid.0)) × (out.new ≡ put out.old 0 (header_of_is src.now con kind tid.0)) }
{
    let first = u8::from(con) * 128 + first_octet(kind);
    let head = [first, tid.high(), tid.low()];
    base_lists::store(&mut *out, 0, &head);
    put_extra(out, src, kind)
}

// Stores an item, whose data lies in src, from `at` on; the place after it.
#[tactic(auto, using(crate::proofs::ItemOctets::long_octets, crate::proofs::ItemOctets::short_octets, crate::proofs::ItemOctets::long_length, crate::proofs::ItemOctets::short_length), unfolding(base_lists::specs::Seq::put))]
pub fn put_item(out: &mut [u8], at: usize, src: &[u8], it: Item, con: bool) -> usize
    requires fit_item { FitItem src.now it }
    requires it_in_bounds { at + length (item_octets src.now con it) ≤ length out.old }
    ensures { (result ≡ at + length (item_octets src.now con it)) × (out.new ≡ put out.old at (item_octets src.now con it)) }
{
    let top = u8::from(con) * 128 + it.identity * 8;
    if it.long {
        out[at] = top + 4;
        out[at + 1] = it.len as u8;
        base_lists::copy(&mut *out, at + 2, src, it.start, it.len);
        at + 2 + it.len
    } else {
        out[at] = top + it.len as u8;
        base_lists::copy(&mut *out, at + 1, src, it.start, it.len);
        at + 1 + it.len
    }
}
