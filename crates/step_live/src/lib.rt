// An event that comes to a live record: its row, and whose turn it is.
#![tactic(auto)]

ghost use Rattle.std.specs.Prelude.{◌≡◌, ◌+◌, ◌*◌, ◌≤◌, length};
ghost use Rattle.base_layout.specs.Layout.{header_size, record_size};
ghost use Rattle.step_live.specs.Turning.{row_in, row_at, holder_of};

use row_events::{Event, Row};
use step_plan::Holder;
use table_layout::Settings;
use table_record::Record;

// The row that an event meets in a record.
fn row_in(r: Record, s: Settings, event: Event) -> Row
    ensures { result ≡ row_in r s event }
{
    row_choice::row_of(r.state, event, row_conditions::conditions_of(s, r))
}

// The row that an event meets in the record at a place.
#[tactic(auto, unfolding(crate::specs::Turning::row_at))]
pub fn row_at(t: &[u8], place: usize, event: Event) -> Row
    requires { header_size + place * record_size + record_size ≤ length t.now }
    ensures { result ≡ row_at t.now place event }
{
    row_in(
        table_layout::record_at(t, place),
        table_layout::settings_of(t),
        event,
    )
}

// The record's name, class, U/P and TIDnew, and the message in its cell.
#[tactic(auto, unfolding(crate::specs::Turning::holder_of))]
pub fn holder_of(r: Record, place: usize) -> Holder
    ensures { result ≡ holder_of r place }
{
    Holder {
        place,
        role: r.state.role(),
        peer: r.peer,
        tid: r.tid,
        class: r.state.class(),
        up: r.user_ack,
        tidnew: r.tidnew,
        len: r.len,
    }
}
