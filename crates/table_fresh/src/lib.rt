// The fresh-table call: settings and the first GenTID are judged, and a table without records is made.
#![tactic(auto)]

ghost use Rattle.std.specs.Prelude.{◌≡◌, ◌+◌, ◌≤◌, length};
ghost use Rattle.base_layout.specs.Layout.{a_at, limit_at, header_spare_at, base};
ghost use Rattle.base_lists.specs.Seq.{put};
ghost use Rattle.base_octets.specs.Octets.{enc};
ghost use Rattle.table_layout.specs.Table.{count};
ghost use Rattle.table_fresh.specs.Fresh.{zeros, table_bytes, word_ok, words_ok, in_range, fresh_answer, four_each, put_requests, fresh_table, left, left_by_is};

use base_layout::{HEADER_SIZE, RECORD_SIZE};
use base_numbers::Refusal;

// Sizes and bounds as wide as the words.
const HEADER_BYTES: u64 = HEADER_SIZE as u64;

const RECORD_BYTES: u64 = RECORD_SIZE as u64;

const RECORDS_BOUND: u64 = base_layout::RECORDS_BOUND as u64;

const MAXIMUM_BOUND: u64 = base_layout::MAXIMUM_BOUND as u64;

const INTERVAL_BOUND: u64 = base_layout::INTERVAL_BOUND as u64;

const TID_BOUND: u64 = base_layout::TID_BOUND as u64;

// The bytes of a table for 1 to 48 records, else 0.
#[tactic(auto, unfolding(crate::specs::Fresh::table_bytes))]
pub fn table_bytes(records: u64) -> u64
    ensures { result ≡ table_bytes records }
{
    if 1 <= records && records <= RECORDS_BOUND {
        HEADER_BYTES + RECORD_BYTES * records
    } else {
        0
    }
}

// Whether the word k of the settings is in range.
#[tactic(auto, unfolding(crate::specs::Fresh::word_ok))]
fn word_ok(k: usize, w: u64) -> bool
    ensures { result ≡ word_ok k w }
{
    match k {
        0..=1 => w <= MAXIMUM_BOUND,
        2..=21 => 1 <= w && w <= INTERVAL_BOUND,
        22..=23 => true,
        _ => w == 0,
    }
}

fn words_ok(ws: &[u64]) -> bool
    requires { 32 ≤ length ws.now }
    ensures { result ≡ words_ok ws.now }
{
    (0..32).all(|k| word_ok(k, ws[k]))
}

#[tactic(auto, unfolding(crate::specs::Fresh::in_range))]
fn in_range(ws: &[u64], first: u64) -> bool
    ensures { result ≡ in_range ws.now first }
{
    ws.len() == 32 && words_ok(ws) && table_ranges::modes_ok(ws[22], ws[23]) && first <= TID_BOUND
}

#[tactic(auto, unfolding(crate::specs::Fresh::fresh_answer, crate::specs::Fresh::right_size, table_well_formed::specs::WellFormed::length_ok))]
fn fresh_answer(len: usize, ws: &[u64], first: u64) -> Result<(), Refusal>
    ensures { result ≡ fresh_answer len ws.now first }
{
    if !table_well_formed::length_ok(len) {
        return Err(Refusal::WrongSize);
    }
    if !in_range(ws, first) {
        return Err(Refusal::WrongSetting);
    }
    Ok(())
}

// Stores a number in the octets that it has there.
fn put_number(t: &mut [u8], at: usize, width: usize, v: u64)
    requires { (at + width ≤ length t.old) × (width ≤ 8) }
    ensures { t.new ≡ put t.old at (enc width v) }
{
    let w = v.to_le_bytes();
    base_lists::store(t, at, &w[0..width]);
}

// A, W and the 18 R.
fn put_intervals(t: &mut [u8], ws: &[u64])
    requires { (limit_at ≤ length t.old) × (22 ≤ length ws.now) }
    ensures { t.new ≡ put t.old a_at (four_each 20 2 ws.now) }
{
    for k in 0..20 {
        put_number(t, base_layout::A_AT + k * 4, 4, ws[2 + k]);
    }
}

// The waiting limit and its mode; TIDnew is due.
#[tactic(auto, unfolding(crate::specs::Fresh::put_requests))]
fn put_requests(t: &mut [u8], ws: &[u64])
    requires { (header_spare_at ≤ length t.old) × (24 ≤ length ws.now) }
    ensures { t.new ≡ put_requests t.old ws.now }
{
    put_number(t, base_layout::LIMIT_AT, 4, ws[23]);
    put_number(t, base_layout::MODES_AT, 1, ws[22]);
    put_number(t, base_layout::TIDNEW_DUE_AT, 1, 1);
}

// A loop, since fill writes the last octet by itself, for which wtp_fresh would need more stack.
fn clear(t: &mut [u8])
    ensures { t.new ≡ zeros (length t.old) }
{
    for i in 0..t.len() {
        t[i] = 0;
    }
}

fn put_fresh(t: &mut [u8], ws: &[u64], first: u64)
    requires { (length t.old ≡ base (count t.old)) × (24 ≤ length ws.now) }
    ensures { t.new ≡ fresh_table (count t.old) ws.now first }
{
    clear(t);
    put_number(t, base_layout::GEN_TID_AT, 2, first);
    put_number(t, base_layout::RCR_MAX_AT, 1, ws[0]);
    put_number(t, base_layout::AEC_MAX_AT, 1, ws[1]);
    put_intervals(t, ws);
    put_requests(t, ws);
}

// Makes the table fresh: no live record, no cached TID, clock 0.
#[tactic(auto, unfolding(crate::specs::Fresh::left_by_is, crate::specs::Fresh::table_after_fresh))]
pub fn make_fresh(table: &mut [u8], settings: &[u64], first_tid: u64) -> Result<(), Refusal>
    ensures { left result table.new ≡ left_by_is table.old settings.now first_tid }
{
    fresh_answer(table.len(), settings, first_tid)?;
    put_fresh(table, settings, first_tid);
    Ok(())
}
