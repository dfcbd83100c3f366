// What comes without a live record: the changes and the place of an opening.
#![tactic(auto)]

ghost use Rattle.std.specs.Prelude.{◌≡◌, ◌≤◌};
ghost use Rattle.base_layout.specs.Layout.{tid_bound};
ghost use Rattle.step_opening.specs.Opens.{opening_changes, place_for};

use row_turns::Turn;
use step_commit::{Change, Changes, GenTid};
use step_plan::Holder;

// The changes of an opening for this holder, whose peer has this TID cached.
#[tactic(auto, unfolding(crate::specs::Opens::opening_changes))]
pub fn opening_changes(
    turn: Turn,
    h: Holder,
    cached: u16,
    gen_tid: Option<GenTid>,
    time: u64,
) -> Changes
    requires { h.tid ≤ tid_bound }
    ensures { result ≡ opening_changes turn h cached gen_tid time }
{
    Changes {
        place: h.place,
        change: step_changes::change_of(turn.after, Change::Nothing),
        exit: false,
        gen_tid,
        peer: usize::from(h.peer),
        cached: step_changes::cached_after(turn.cache, cached, h.tid),
        time,
    }
}

// The place of the record that an opening takes; the first where it can take none.
#[tactic(auto, unfolding(crate::specs::Opens::place_for))]
pub fn place_for(free: Option<usize>) -> usize
    ensures { result ≡ place_for free }
{
    free.unwrap_or(0)
}
