// Tables after a brown-out (02, L12): each place is judged by the test of a record that the well-formed test runs, then by its name; what can't stay is zeroed and listed.
#![tactic(auto)]

ghost use Rattle.std.specs.Prelude.{◌≡◌, true, Some, ◌+◌, ◌*◌, ◌≤◌, length, replicate};
ghost use Rattle.base_lists.specs.Seq.{put};
ghost use Rattle.table_layout.specs.Table.{HasRecord, HasRecords, count};
ghost use Rattle.table_well_formed.specs.WellFormed.{length_ok};
ghost use Rattle.table_salvage.specs.Salvage.{reason_of, shares_name, finding_at, reason_at, pair_for, zeroed_for, salvaged_to, pairs_to, pairs_size, list_of, salvage_number, table_salvaged, list_salvaged};

use base_layout::{HEADER_SIZE, RECORD_SIZE};
use base_numbers::Refusal;

// The list: how many places were changed, then place and reason of each.
const PAIRS_SIZE: usize = base_layout::RECORDS_BOUND * 2;

const LIST_SIZE: usize = 1 + PAIRS_SIZE;

// The first reason why a place can't stay.
#[derive(Clone, Copy)]
pub enum Reason {
    OutOfRange,
    NotZero,
    SharesName,
}

// The reason as a word of the list.
impl From<Reason> for u64 {
    ghost from_gives = { λ it number. number ≡ reason_of (Some it) };

    fn from(it: Reason) -> u64 {
        match it {
            Reason::OutOfRange => 1,
            Reason::NotZero => 2,
            Reason::SharesName => 3,
        }
    }
}

// Whether record i is live and shares role, peer and TID with a live one of a lower place.
#[tactic(auto, unfolding(crate::specs::Salvage::shares_name))]
fn shares_name(t: &[u8], i: usize) -> bool
    requires { HasRecord t.now i }
    ensures { result ≡ shares_name t.now i }
{
    let r = table_layout::record_at(t, i);
    if u8::from(r.state) == 0 {
        return false;
    }
    let lower = table_finding::named(t, i, r.state.role(), u64::from(r.peer), u64::from(r.tid));
    lower.is_some()
}

#[tactic(auto, unfolding(crate::specs::Salvage::finding_at))]
fn finding_at(t: &[u8], i: usize) -> Option<Reason>
    requires { HasRecord t.now i }
    ensures { result ≡ finding_at t.now i }
{
    if !table_record_ok::record_ok(t, table_layout::settings_of(t), i) {
        let free = t[HEADER_SIZE + i * RECORD_SIZE] == 0;
        return Some(if free {
            Reason::NotZero
        } else {
            Reason::OutOfRange
        });
    }
    if shares_name(t, i) {
        Some(Reason::SharesName)
    } else {
        None
    }
}

// Zeroes record i and lists it after `k` words of places and reasons, unless it stays; gives how many such words there are then.
fn salvage_place(t: &mut [u8], list: &mut [u64], i: usize, k: usize) -> usize
    requires { HasRecord t.old i × (1 + k + 2 ≤ length list.old) }
    ensures { (result ≡ k + length (pair_for i (reason_at t.old i))) × (t.new ≡ zeroed_for t.old i (reason_at t.old i)) × (list.new ≡ put list.old (1 + k) (pair_for i (reason_at t.old i))) }
{
    let Some(reason) = finding_at(t, i) else {
        return k;
    };
    table_layout::clear_record(t, i);
    let pair = [i as u64, u64::from(reason)];
    base_lists::store(list, 1 + k, &pair);
    k + 2
}

// The n places one after the other, so that all lower ones are done when a name is judged.
fn salvage_places(t: &mut [u8], list: &mut [u64], n: usize) -> usize
    requires { HasRecords t.old n × (1 + n * 2 ≤ length list.old) }
    ensures { (result ≡ length (pairs_to t.old n)) × (t.new ≡ salvaged_to t.old n) × (list.new ≡ put list.old 1 (pairs_to t.old n)) }
{
    let mut k = 0;
    for i in 0..n {
        k = salvage_place(t, list, i, k);
    }
    k
}

#[tactic(auto, using(base_lists::proofs::StoresAndParts::put_mid_put))]
fn clear_words(list: &mut [u64], at: usize, n: usize)
    requires { at + n ≤ length list.old }
    ensures { list.new ≡ put list.old at (replicate n 0) }
{
    list[at..at + n].fill(0);
}

// All places of a table, and the rest of the list: zeros after the pairs, and before them how many places there are.
fn salvage_all(t: &mut [u8], list: &mut [u64])
    requires { (length_ok (length t.old) ≡ true) × (1 + pairs_size ≤ length list.old) }
    ensures { (t.new ≡ salvaged_to t.old (count t.old)) × (list.new ≡ put list.old 0 (list_of (pairs_to t.old (count t.old)))) }
{
    let n = table_layout::records(t);
    let k = salvage_places(t, list, n);
    clear_words(list, 1 + k, PAIRS_SIZE - k);
    let changed = [(k / 2) as u64];
    base_lists::store(list, 0, &changed);
}

// Makes a damaged table well formed, and lists what it changed.
#[tactic(auto, unfolding(crate::specs::Salvage::salvage_number, crate::specs::Salvage::table_salvaged, crate::specs::Salvage::list_salvaged))]
pub fn salvage(t: &mut [u8], list: &mut [u64]) -> u64
    ensures { (result ≡ salvage_number t.old list.old) × (t.new ≡ table_salvaged t.old list.old) × (list.new ≡ list_salvaged t.old list.old) }
{
    if !table_well_formed::length_ok(t.len()) || list.len() < LIST_SIZE {
        return u64::from(Refusal::WrongSize);
    }
    if !table_header_ok::header_ok(t) {
        return u64::from(Refusal::WrongHeader);
    }
    salvage_all(t, list);
    0
}
