// Carries an accepted call out at once: the turn, the table, the cell, the PDU, and the words of the answer.
#![tactic(auto)]

ghost use Rattle.std.specs.Prelude.{◌≡◌, ◌+◌, ◌*◌, ◌≤◌, ◌<◌, length, Ok};
ghost use Rattle.base_layout.specs.Layout.{header_size, record_size, time_bound, tid_bound};
ghost use Rattle.base_lists.specs.Seq.{put};
ghost use Rattle.table_layout.specs.Table.{put_clock};
ghost use Rattle.step_outcome.specs.Carry.{Ready, lent};
ghost use Rattle.step_carrying.specs.Coming.{place_of, record_for, act_for, turn_for, holder_for, changes_for, coming_step, InRange};
ghost use Rattle.c_answers.specs.Answers.{idle_words, no_cost, cost_words};
ghost use Rattle.c_answers.specs.Handed.{called, handed_by};

use row_columns::Act;
use row_events::{Opening, Row};
use row_turns::{Given, Turn};
use step_commit::{Changes, GenTid};
use step_plan::{Call, Holder};
use table_record::Record;

// What comes: a row for the live record at a place, or an opening for whom it concerns, with what becomes of GenTID.
#[derive(Clone, Copy)]
pub enum Coming {
    Live(usize, Row),
    Opens(Opening, Holder, Option<GenTid>),
}

#[inline(never)]
fn record_for(t: &[u8], coming: Coming) -> Record
    requires { header_size + place_of coming * record_size + record_size ≤ length t.now }
    ensures { result ≡ record_for t.now coming }
{
    match coming {
        Coming::Live(place, _) => table_layout::record_at(t, place),
        Coming::Opens(_, h, _) => row_turns::new_record(h.peer, h.tid, h.up, h.tidnew),
    }
}

fn act_for(coming: Coming, r: Record, g: Given) -> Act
    ensures { result ≡ act_for coming r g }
{
    match coming {
        Coming::Live(_, row) => row_entries::act_of(row, r.tidok_sent, g.kind, g.reason),
        Coming::Opens(opening, _, _) => row_entries::opening_act(opening),
    }
}

#[tactic(auto, unfolding(crate::specs::Coming::turn_for))]
fn turn_for(t: &[u8], coming: Coming, r: Record, g: Given) -> Turn
    requires { (header_size ≤ length t.now) × (g.time ≤ time_bound) }
    ensures { result ≡ turn_for t.now coming r g }
{
    row_turns::turn_of(act_for(coming, r, g), r, g, table_layout::settings_of(t), t)
}

fn holder_for(coming: Coming, r: Record) -> Holder
    ensures { result ≡ holder_for coming r }
{
    match coming {
        Coming::Live(place, _) => step_live::holder_of(r, place),
        Coming::Opens(_, h, _) => h,
    }
}

#[tactic(auto, unfolding(crate::specs::Coming::changes_for))]
fn changes_for(t: &[u8], coming: Coming, turn: Turn, h: Holder, time: u64) -> Changes
    requires { (header_size ≤ length t.now) × (h.tid ≤ tid_bound) }
    ensures { result ≡ changes_for t.now coming turn h time }
{
    let cached = table_layout::cached_of(t, usize::from(h.peer));
    match coming {
        Coming::Live(..) => step_changes::turn_changes(turn, h.place, h.peer, h.tid, cached, time),
        Coming::Opens(_, _, gen_tid) => step_opening::opening_changes(
            turn, h, cached, gen_tid, time,
        ),
    }
}

// The whole turn; `given` holds the message and the PDU's data, `exit` the exit information.
pub fn carry(
    table: &mut [u8],
    store: &mut [u8],
    out: &mut [u8],
    answer: &mut [u64],
    given: &[u8],
    exit: &[u8],
    coming: Coming,
    g: Given,
    c: Call,
) -> u64
    requires ready { Ready (lent table.old store.old out.old given.now exit.now) (coming_step table.old coming g c) }
    requires in_range { InRange table.old coming g }
    requires in_bounds { 34 ≤ length answer.old }
    ensures { called result table.new store.new out.new answer.new ≡ handed_by (lent table.old store.old out.old given.now exit.now) (Ok (coming_step table.old coming g c)) answer.old }
{
    let r = record_for(table, coming);
    let turn = turn_for(table, coming, r, g);
    let h = holder_for(coming, r);
    let changes = changes_for(table, coming, turn, h, g.time);
    c_answers::report(answer, c_answers::change_cost(changes.change, r));
    let sent = step_outcome::carry_out(table, store, out, given, exit, turn, changes, h, c);
    c_answers::give(answer, sent, turn, h, c);
    0
}

// A call that only stores its time, and tells and shows nothing.
pub fn idle(table: &mut [u8], answer: &mut [u64], time: u64) -> u64
    requires { (header_size ≤ length table.old) × (34 ≤ length answer.old) }
    ensures { (result ≡ 0) × (table.new ≡ put_clock table.old time) × (answer.new ≡ put (put answer.old 32 (cost_words no_cost)) 0 idle_words) }
{
    let words = [0u64; 32];
    table_layout::put_clock(table, time);
    c_answers::report(answer, c_answers::no_cost());
    base_lists::store(answer, 0, &words);
    0
}
