// Carries a call's changes out on the table, one slice at a time: nothing is decided here.
#![tactic(auto)]

ghost use Rattle.std.specs.Prelude.{◌≡◌, ◌+◌, ◌*◌, ◌≤◌, ◌<◌, length};
ghost use Rattle.base_layout.specs.Layout.{header_size, record_size, peers, exit_bound};
ghost use Rattle.step_commit.specs.Commit.{record_changed, exit_stored, gen_tid_changed, cache_changed, table_changed};

use base_layout::{EXIT_OFFSET, HEADER_SIZE, RECORD_SIZE};
use table_record::Record;

// What becomes of the record: "ended records are used again", so an ended one is zeroed.
#[derive(Clone, Copy)]
pub enum Change {
    Nothing,
    Put(Record),
    Clear,
}

// GenTID, and whether TIDnew is then due.
#[derive(Clone, Copy)]
pub struct GenTid {
    pub tid: u16,
    pub tidnew_due: bool,
}

// The changes of an accepted call: the record at a place, whether the given exit information is stored with it, GenTID and the cached TID of a peer where they change, the time.
#[derive(Clone, Copy)]
pub struct Changes {
    pub place: usize,
    pub change: Change,
    pub exit: bool,
    pub gen_tid: Option<GenTid>,
    pub peer: usize,
    pub cached: Option<u16>,
    pub time: u64,
}

#[tactic(auto, unfolding(crate::specs::Commit::record_changed))]
fn change_record(t: &mut [u8], place: usize, change: Change)
    requires { header_size + place * record_size + record_size ≤ length t.old }
    ensures { t.new ≡ record_changed t.old place change }
{
    match change {
        Change::Nothing => {}
        Change::Put(r) => table_layout::put_record(t, place, r),
        Change::Clear => table_layout::clear_record(t, place),
    }
}

#[tactic(auto, unfolding(crate::specs::Commit::exit_stored))]
fn store_exit(t: &mut [u8], place: usize, stored: bool, exit: &[u8])
    requires record_size_in_bounds { header_size + place * record_size + record_size ≤ length t.old }
    requires len_bound { length exit.now ≤ exit_bound }
    ensures { t.new ≡ exit_stored t.old place stored exit.now }
{
    if stored {
        base_lists::store(t, HEADER_SIZE + place * RECORD_SIZE + EXIT_OFFSET, exit);
    }
}

#[tactic(auto, unfolding(crate::specs::Commit::gen_tid_changed))]
fn change_gen_tid(t: &mut [u8], change: Option<GenTid>)
    requires { header_size ≤ length t.old }
    ensures { t.new ≡ gen_tid_changed t.old change }
{
    if let Some(next) = change {
        table_layout::put_gen_tid(t, next.tid);
        table_layout::put_tidnew_due(t, next.tidnew_due);
    }
}

#[tactic(auto, unfolding(crate::specs::Commit::cache_changed))]
fn change_cached(t: &mut [u8], peer: usize, change: Option<u16>)
    requires { (header_size ≤ length t.old) × (peer < peers) }
    ensures { t.new ≡ cache_changed t.old peer change }
{
    if let Some(cached) = change {
        table_layout::put_cached(t, peer, cached);
    }
}

// The record, its exit information, GenTID, the cached TID, and last the time.
#[tactic(auto, unfolding(crate::specs::Commit::table_changed))]
pub fn commit(t: &mut [u8], c: Changes, exit: &[u8])
    requires record_size_in_bounds { (header_size + c.place * record_size + record_size ≤ length t.old) × (c.peer < peers) }
    requires len_bound { length exit.now ≤ exit_bound }
    ensures { t.new ≡ table_changed t.old c exit.now }
{
    change_record(t, c.place, c.change);
    store_exit(t, c.place, c.exit, exit);
    change_gen_tid(t, c.gen_tid);
    change_cached(t, c.peer, c.cached);
    table_layout::put_clock(t, c.time);
}
