// What an accepted timer call brings to the record that it fires.
#![tactic(auto)]

ghost use Rattle.std.specs.Prelude.{◌≡◌, ◌+◌, ◌*◌, ◌≤◌, length};
ghost use Rattle.base_layout.specs.Layout.{header_size, record_size};
ghost use Rattle.call_timer.specs.Timers.{fired_row, fired_given, fired_call};

use row_events::Event;
use row_turns::Given;
use step_carrying::Coming;
use step_plan::{Call, Tells};

// The row that the timer meets in the record at this place.
#[tactic(auto, unfolding(crate::specs::Timers::fired_row))]
pub fn fired_row(t: &[u8], place: usize) -> Coming
    requires { header_size + place * record_size + record_size ≤ length t.now }
    ensures { result ≡ fired_row t.now place }
{
    Coming::Live(place, step_live::row_at(t, place, Event::Timer))
}

#[tactic(auto, unfolding(crate::specs::Timers::fired_given))]
pub fn fired_given(time: u64) -> Given
    ensures { result ≡ fired_given time }
{
    Given {
        time,
        kind: 0,
        reason: 0,
        len: 0,
        exit_len: 0,
        unknown: 0,
    }
}

#[tactic(auto, unfolding(crate::specs::Timers::fired_call))]
pub fn fired_call() -> Call
    ensures { result ≡ fired_call }
{
    let none = step_plan::no_part();
    Call {
        message: none,
        info: none,
        user: none,
        tells: Tells::Record,
    }
}
