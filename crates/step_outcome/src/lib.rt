// Carries an accepted call's step out: the table, the cell, and last the output, one lent slice at a time.
#![tactic(auto)]

ghost use Rattle.std.specs.Prelude.{◌≡◌, ◌+◌, ◌*◌, ◌≤◌, ◌<◌, length};
ghost use Rattle.base_layout.specs.Layout.{output_least, records_bound};
ghost use Rattle.base_lists.specs.Seq.{put};
ghost use Rattle.step_plan.specs.Steps.{step_of};
ghost use Rattle.step_outcome.specs.Carry.{is_nothing, CellFits, cell_written, FitOut, octets_out, Ready, lent, done, taken_of, carried_out};

use row_columns::Send;
use row_turns::Turn;
use step_commit::Changes;
use step_plan::{Call, Holder, Part};
use step_sending::{Sender, Source};

// The message goes to the record's cell; the cell's octets past it stay.
fn write_cell(store: &mut [u8], cell: bool, place: usize, given: &[u8], message: Part)
    requires { CellFits cell place message (length store.old) (length given.now) }
    ensures { store.new ≡ cell_written store.old cell place given.now message }
{
    if cell {
        base_lists::copy(
            store,
            place * base_layout::CELL_SIZE,
            given,
            message.start,
            message.len,
        );
    }
}

fn is_nothing(send: Send) -> bool
    ensures { result ≡ is_nothing send }
{
    matches!(send, Send::Nothing)
}

// At most one PDU, from where its parts lie.
fn send_pdu(
    out: &mut [u8],
    given: &[u8],
    store: &[u8],
    table: &[u8],
    send: Send,
    by: Sender,
) -> usize
    requires fit_out { FitOut given.now store.now table.now send by }
    requires output_least_in_bounds { output_least ≤ length out.old }
    ensures { (result ≡ length (octets_out given.now store.now table.now send by)) × (out.new ≡ put out.old 0 (octets_out given.now store.now table.now send by)) }
{
    if is_nothing(send) {
        return 0;
    }
    match step_sending::source_of(send) {
        Source::Nothing => step_sending::put_sent(out, given, send, by),
        Source::Given => step_sending::put_sent(out, given, send, by),
        Source::Cell => step_sending::put_sent(out, store, send, by),
        Source::Table => step_sending::put_sent(out, table, send, by),
    }
}

// The step of a turn whose changes of the table are known; how much it sent.
pub fn carry_out(
    table: &mut [u8],
    store: &mut [u8],
    out: &mut [u8],
    given: &[u8],
    exit: &[u8],
    turn: Turn,
    changes: Changes,
    h: Holder,
    c: Call,
) -> usize
    requires ready { Ready (lent table.old store.old out.old given.now exit.now) (step_of turn changes h c) }
    requires place_lt_records_bound { h.place < records_bound }
    ensures { done (taken_of result (step_of turn changes h c)) table.new store.new out.new ≡ carried_out (lent table.old store.old out.old given.now exit.now) (step_of turn changes h c) }
{
    let by = step_plan::sender_of(turn, h, c);
    step_commit::commit(table, changes, exit);
    write_cell(store, turn.cell, changes.place, given, c.message);
    send_pdu(out, given, store, table, turn.send, by)
}
