// The PDU to send goes straight to the output, from its description and its sender; and where its parts lie.
#![tactic(auto)]

ghost use Rattle.std.specs.Prelude.{◌≡◌, [], ◌∷◌, ◌+◌, ◌≤◌, true, false, length, eqb};
ghost use Rattle.base_layout.specs.Layout.{exit_bound, output_least};
ghost use Rattle.base_lists.specs.Seq.{put};
ghost use Rattle.row_columns.specs.declared.Send.TheVariants.{Invoke, LastAck, Result};
ghost use Rattle.step_sending.specs.Sending.{tid_of, message_source, source_of};
ghost use Rattle.step_sending.specs.Octets.{with_tid, exit_octets, error_head, ack_octets, octets_sent, FitAck, FitSend};

use base_tids::SendTid;
use codec_items::Item;
use row_columns::Send;
use table_record::Role;

// What a PDU needs of its sender: the message and the exit information are places in their sources; its Acks name the unknown item of that identity, none at 0.
#[derive(Clone, Copy)]
pub struct Sender {
    pub role: Role,
    pub tid: u16,
    pub class: u8,
    pub user_ack: bool,
    pub tidnew: bool,
    pub start: usize,
    pub len: usize,
    pub exit_start: usize,
    pub exit_len: usize,
    pub unknown: u8,
}

// Where the parts of a PDU lie: in what the call was given, in the record's cell, in the table.
#[derive(Clone, Copy)]
pub enum Source {
    Nothing,
    Given,
    Cell,
    Table,
}

#[tactic(auto, unfolding(crate::specs::Sending::tid_of))]
fn tid_of(by: Sender) -> SendTid
    ensures { result.0 ≡ tid_of by }
{
    by.role.send_tid(by.tid % base_layout::TID_COUNT)
}

// The first octet and the TID go to the output's start; the place after them.
#[tactic(auto, unfolding(base_lists::specs::Seq::put))]
fn put_head(out: &mut [u8], first: u8, by: Sender) -> usize
    requires { 3 ≤ length out.old }
    ensures { (result ≡ 3) × (out.new ≡ put out.old 0 (with_tid by first [])) }
{
    let tid = tid_of(by);
    out[0] = first;
    out[1] = tid.high();
    out[2] = tid.low();
    3
}

#[tactic(auto, using(base_lists::proofs::StoresAndParts::length_part), unfolding(crate::specs::Octets::FitSend, crate::specs::Octets::octets_sent, base_lists::specs::Seq::put))]
fn put_invoke(out: &mut [u8], src: &[u8], again: bool, by: Sender) -> usize
    requires fit_send { FitSend src.now (Invoke again) by }
    requires output_least_in_bounds { output_least ≤ length out.old }
    ensures { (result ≡ length (octets_sent src.now (Invoke again) by)) × (out.new ≡ put out.old 0 (octets_sent src.now (Invoke again) by)) }
{
    put_head(out, 0x0E + u8::from(again), by);
    out[3] = codec_encoding::invoke_octet(0, by.tidnew, by.user_ack, by.class);
    base_lists::copy(out, 4, src, by.start, by.len);
    4 + by.len
}

#[tactic(auto, using(base_lists::proofs::StoresAndParts::length_part), unfolding(crate::specs::Octets::FitSend, crate::specs::Octets::octets_sent, base_lists::specs::Seq::put))]
fn put_result(out: &mut [u8], src: &[u8], again: bool, by: Sender) -> usize
    requires fit_send { FitSend src.now (Result again) by }
    requires output_least_in_bounds { output_least ≤ length out.old }
    ensures { (result ≡ length (octets_sent src.now (Result again) by)) × (out.new ≡ put out.old 0 (octets_sent src.now (Result again) by)) }
{
    put_head(out, 0x16 + u8::from(again), by);
    base_lists::copy(out, 3, src, by.start, by.len);
    3 + by.len
}

// Exit information as Info item 1, from `at` on; the place after it.
fn put_exit(out: &mut [u8], at: usize, src: &[u8], by: Sender) -> usize
    requires exit_len_in_bounds { (by.exit_start + by.exit_len ≤ length src.now) × (by.exit_len ≤ exit_bound) }
    requires at_bound { (at ≤ 5) × (output_least ≤ length out.old) }
    ensures { (result ≡ at + length (exit_octets src.now by)) × (out.new ≡ put out.old at (exit_octets src.now by)) }
{
    let it = Item {
        identity: 1,
        long: 3 < by.exit_len,
        start: by.exit_start,
        len: by.exit_len,
    };
    codec_encoding::put_item(out, at, src, it, false)
}

// An Ack that names no unknown item; `bare`: without exit information.
#[tactic(auto, unfolding(crate::specs::Octets::ack_octets, base_lists::specs::Seq::put))]
fn put_known_ack(out: &mut [u8], src: &[u8], again: bool, bare: bool, by: Sender) -> usize
    requires fit_ack { FitAck src.now bare by }
    requires output_least_in_bounds { output_least ≤ length out.old }
    ensures { (result ≡ length (ack_octets src.now again true bare by)) × (out.new ≡ put out.old 0 (ack_octets src.now again true bare by)) }
{
    let rid = u8::from(again);
    if bare {
        put_head(out, 0x18 + rid, by)
    } else {
        put_head(out, 0x98 + rid, by);
        put_exit(out, 3, src, by)
    }
}

// The first octet of the Error item: CON where exit information follows.
fn error_head(bare: bool) -> u8
    ensures { result ≡ error_head bare }
{
    if bare { 0x01 } else { 0x81 }
}

// An Ack that names an unknown item, before exit information.
#[tactic(auto, unfolding(base_lists::specs::Seq::put, crate::specs::Octets::ack_octets))]
fn put_error_ack(out: &mut [u8], src: &[u8], again: bool, bare: bool, by: Sender) -> usize
    requires fit_ack { FitAck src.now bare by }
    requires output_least_in_bounds { output_least ≤ length out.old }
    ensures { (result ≡ length (ack_octets src.now again false bare by)) × (out.new ≡ put out.old 0 (ack_octets src.now again false bare by)) }
{
    put_head(out, 0x98 + u8::from(again), by);
    let item = [error_head(bare), 0x10 + by.unknown];
    base_lists::store(out, 3, &item);
    if bare { 5 } else { put_exit(out, 5, src, by) }
}

// A plain Ack of a record.
fn put_ack(out: &mut [u8], src: &[u8], again: bool, bare: bool, by: Sender) -> usize
    requires fit_ack { FitAck src.now bare by }
    requires output_least_in_bounds { output_least ≤ length out.old }
    ensures { (result ≡ length (ack_octets src.now again (eqb by.unknown 0) bare by)) × (out.new ≡ put out.old 0 (ack_octets src.now again (eqb by.unknown 0) bare by)) }
{
    if by.unknown == 0 {
        put_known_ack(out, src, again, bare, by)
    } else {
        put_error_ack(out, src, again, bare, by)
    }
}

#[tactic(auto, unfolding(base_lists::specs::Seq::put))]
fn put_abort(out: &mut [u8], abort_type: u8, reason: u8, by: Sender) -> usize
    requires { (abort_type ≤ 1) × (output_least ≤ length out.old) }
    ensures { (result ≡ 4) × (out.new ≡ put out.old 0 (with_tid by (0x20 + abort_type) (reason ∷ []))) }
{
    put_head(out, 0x20 + abort_type, by);
    out[3] = reason;
    4
}

// The PDU goes straight from its source to the output's start; its length.
#[tactic(auto, unfolding(crate::specs::Octets::FitSend, crate::specs::Octets::octets_sent))]
pub fn put_sent(out: &mut [u8], src: &[u8], send: Send, by: Sender) -> usize
    requires fit_send { FitSend src.now send by }
    requires output_least_in_bounds { output_least ≤ length out.old }
    ensures { (result ≡ length (octets_sent src.now send by)) × (out.new ≡ put out.old 0 (octets_sent src.now send by)) }
{
    match send {
        Send::Nothing => 0,
        Send::Invoke(again) => put_invoke(out, src, again, by),
        Send::Tidok(again) => put_head(out, 0x1C + u8::from(again), by),
        Send::LastAck(again) => put_ack(out, src, again, by.exit_len == 0, by),
        Send::HoldOn(again) => put_ack(out, src, again, true, by),
        Send::Tidve(again) => put_head(out, 0x1C + u8::from(again), by),
        Send::Result(again) => put_result(out, src, again, by),
        Send::Abort(abort_type, reason) => put_abort(out, abort_type, reason, by),
    }
}

fn source_by(again: bool) -> Source
    ensures { result ≡ message_source again }
{
    if again { Source::Cell } else { Source::Given }
}

#[tactic(auto, unfolding(crate::specs::Sending::source_of))]
pub fn source_of(send: Send) -> Source
    ensures { result ≡ source_of send }
{
    match send {
        Send::Invoke(again) | Send::Result(again) => source_by(again),
        Send::LastAck(_) => Source::Table,
        _ => Source::Nothing,
    }
}
