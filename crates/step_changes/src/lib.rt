// From a turn of a record to the changes of the table that it stands for.
#![tactic(auto)]

ghost use Rattle.std.specs.Prelude.{◌≡◌, ◌<◌};
ghost use Rattle.base_layout.specs.Layout.{tid_count};
ghost use Rattle.step_changes.specs.Changes.{change_of, cached_after, turn_changes};

use row_columns::Cache;
use row_turns::Turn;
use step_commit::{Change, Changes};
use table_record::Record;

// What becomes of the record: where it isn't live afterwards, what the caller says.
#[tactic(auto, unfolding(crate::specs::Changes::change_of))]
pub fn change_of(after: Record, ended: Change) -> Change
    ensures { result ≡ change_of after ended }
{
    if u8::from(after.state) == 0 {
        ended
    } else {
        Change::Put(after)
    }
}

// What becomes of the cached TID of the peer: 0 is none, else LastTID and 1.
#[tactic(auto, unfolding(crate::specs::Changes::cached_after))]
pub fn cached_after(cache: Cache, cached: u16, tid: u16) -> Option<u16>
    requires { tid < tid_count }
    ensures { result ≡ cached_after cache cached tid }
{
    match cache {
        Cache::Same => None,
        Cache::Set => Some(tid + 1),
        Cache::SetIfNone => { if cached == 0 { Some(tid + 1) } else { None } }
        Cache::Drop => Some(0),
    }
}

// The changes of a turn of the record at a place, whose peer has this TID cached.
#[tactic(auto, unfolding(crate::specs::Changes::turn_changes))]
pub fn turn_changes(turn: Turn, place: usize, peer: u8, tid: u16, cached: u16, time: u64) -> Changes
    requires { tid < tid_count }
    ensures { result ≡ turn_changes turn place peer tid cached time }
{
    Changes {
        place,
        change: change_of(turn.after, Change::Clear),
        exit: turn.exit,
        gen_tid: None,
        peer: usize::from(peer),
        cached: cached_after(turn.cache, cached, tid),
        time,
    }
}
