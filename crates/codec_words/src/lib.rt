// The 88 words that the C interface has for a PDU, stored.
#![tactic(auto)]

ghost use Rattle.std.specs.Prelude.{◌≡◌, ◌≤◌, length};
ghost use Rattle.base_lists.specs.Seq.{put};
ghost use Rattle.codec_words.specs.Words.{front_words, invoke_words, other_words, rest_words, item_words, items_words};
ghost use Rattle.codec_words.specs.Listed.{placed_at, item_of, next_of, count_from, list_from, words_from};

use base_tids::RcvTid;
use codec_items::{Got, Unknown};
use codec_pdu::{Brief, Kind};

// Words 0 to 4: type, GTR, TTR, RID, TID.
#[tactic(auto, unfolding(crate::specs::Words::front_words))]
fn front_words(kind: Kind, tid: RcvTid) -> [u64; 5]
    ensures { result ≡ front_words kind tid.0 }
{
    let (typ, gtr, ttr, rid) = match kind {
        Kind::Invoke { gtr, ttr, rid, .. } => (1, gtr, ttr, rid),
        Kind::Result { gtr, ttr, rid } => (2, gtr, ttr, rid),
        Kind::Ack { rid, .. } => (3, false, false, rid),
        Kind::Abort { .. } => (4, false, false, false),
        Kind::SegInvoke { gtr, ttr, rid, .. } => (5, gtr, ttr, rid),
        Kind::SegResult { gtr, ttr, rid, .. } => (6, gtr, ttr, rid),
        Kind::Nack { rid, .. } => (7, false, false, rid),
        Kind::Wrong(_) | Kind::Refused(_) => (0, false, false, false),
    };
    [
        typ,
        u64::from(gtr),
        u64::from(ttr),
        u64::from(rid),
        u64::from(tid.0),
    ]
}

// Words 5 to 8: version, TIDnew, U/P, class.
#[tactic(auto, unfolding(crate::specs::Words::invoke_words))]
fn invoke_words(kind: Kind) -> [u64; 4]
    ensures { result ≡ invoke_words kind }
{
    match kind {
        Kind::Invoke {
            version,
            tidnew,
            up,
            class,
            ..
        } => [
            u64::from(version),
            u64::from(tidnew),
            u64::from(up),
            u64::from(class),
        ],
        _ => [0; 4],
    }
}

// Words 9 to 14: Tve/Tok, abort type, abort reason, packet number, Nack count, start of the Nack list.
#[tactic(auto, unfolding(crate::specs::Words::other_words))]
fn other_words(kind: Kind) -> [u64; 6]
    ensures { result ≡ other_words kind }
{
    let (tve, abort_type, reason, packet, count, list) = match kind {
        Kind::Ack { tve, .. } => (tve, 0, 0, 0, 0, 0),
        Kind::Abort { abort_type, reason } => (false, abort_type, reason, 0, 0, 0),
        Kind::SegInvoke { packet, .. } | Kind::SegResult { packet, .. } => (
            false, 0, 0, packet, 0, 0,
        ),
        Kind::Nack { count, list, .. } => (false, 0, 0, 0, count, list),
        _ => (false, 0, 0, 0, 0, 0),
    };
    [
        u64::from(tve),
        u64::from(abort_type),
        u64::from(reason),
        u64::from(packet),
        u64::from(count),
        list as u64,
    ]
}

// Words 15 to 23: number of items, start and length of the user data, identity and place of the first unknown item; the others are zero.
#[tactic(auto, unfolding(crate::specs::Words::rest_words))]
fn rest_words(count: u64, start: usize, len: usize, unknown: Unknown) -> [u64; 9]
    ensures { result ≡ rest_words count start len unknown }
{
    let identity = u64::from(unknown.identity);
    let place = unknown.place as u64;
    [count, start as u64, len as u64, identity, place, 0, 0, 0, 0]
}

// The words of what stands at a place; four zeros where there is no item.
#[tactic(auto, unfolding(crate::specs::Words::item_words))]
fn item_words(got: Option<Got>) -> [u64; 4]
    ensures { result ≡ item_words (item_of got) }
{
    match got {
        Some(Got { item, .. }) => [
            u64::from(item.identity),
            u64::from(item.long),
            item.start as u64,
            item.len as u64,
        ],
        None => [0; 4],
    }
}

// What stands at a place.
fn placed_at(s: &[u8], at: Option<usize>) -> Option<Got>
    ensures { result ≡ placed_at s.now at }
{
    codec_items::item_at(s, at?)
}

// The place of the item after what stands at a place, if its CON bit is set.
fn next_of(got: Option<Got>) -> Option<usize>
    ensures { result ≡ next_of got }
{
    got.and_then(|got| got.con.then_some(got.next))
}

// Stores the words of the 16 items from `first` on, four for each, from word 24 on; gives how many there are.
fn store_items(fields: &mut [u64], s: &[u8], first: Option<usize>) -> u64
    requires { 88 ≤ length fields.old }
    ensures { (result ≡ count_from 16 s.now first) × (fields.new ≡ put fields.old 24 (items_words (list_from 16 s.now first))) }
{
    let mut at = first;
    let mut count = 0;
    for k in 0..16 {
        let got = placed_at(s, at);
        base_lists::store(&mut *fields, 24 + 4 * k, &item_words(got));
        count += u64::from(got.is_some());
        at = next_of(got);
    }
    count
}

// Stores the words of a PDU in s, whose first item stands at `first`.
pub fn store_fields(fields: &mut [u64], s: &[u8], first: Option<usize>, b: Brief)
    requires { 88 ≤ length fields.old }
    ensures { fields.new ≡ put fields.old 0 (words_from s.now first b) }
{
    let count = store_items(&mut *fields, s, first);
    let front = front_words(b.kind, b.tid);
    base_lists::store(&mut *fields, 0, &front);
    let invoke = invoke_words(b.kind);
    base_lists::store(&mut *fields, 5, &invoke);
    let other = other_words(b.kind);
    base_lists::store(&mut *fields, 9, &other);
    let rest = rest_words(count, b.start, b.len, b.unknown);
    base_lists::store(fields, 15, &rest);
}
