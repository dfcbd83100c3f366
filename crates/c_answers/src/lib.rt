// The words that the C interface has for the answer of an engine call: 32 of the turn, two of what its record has sent, and six that the requests of document 02 added.
#![tactic(auto)]

ghost use Rattle.std.specs.Prelude.{◌≡◌, [], ◌∷◌, ◌+◌, ◌≤◌, ◌<◌, length};
ghost use Rattle.base_layout.specs.Layout.{records_bound, answer_size};
ghost use Rattle.base_lists.specs.Seq.{put};
ghost use Rattle.table_record.specs.Record.{role_of};
ghost use Rattle.step_shown.specs.Kinds.{by_indication};
ghost use Rattle.step_shown.specs.Shows.{shown_of};
ghost use Rattle.step_shown.specs.Words.{shown_words};
ghost use Rattle.c_answers.specs.Answers.{told_tid, told_fired, record_words, answer_words, turn_words, role_cost, no_cost, change_cost, cost_words, more_words, told_after};

use codec_items::Unknown;
use row_columns::Indication;
use row_turns::Turn;
use step_commit::Change;
use step_plan::{Call, Holder, Told};
use step_shown::Context;
use table_record::{Record, Role};

// What an answer tells of an initiator's record: the octets that it has sent, and whether its transaction ended.
#[derive(Clone, Copy)]
pub struct Cost {
    pub sent: u32,
    pub ended: bool,
}

// Nothing is no indication, all else is one.
fn shown_count(i: Indication) -> u64
    ensures { result ≡ by_indication 0 1 1 1 1 i }
{
    match i {
        Indication::Nothing => 0,
        _ => 1,
    }
}

fn told_tid(told: Told) -> u64
    ensures { result ≡ told_tid told }
{
    match told {
        Told::Tid(tid) => u64::from(tid),
        _ => 0,
    }
}

fn told_fired(told: Told) -> u64
    ensures { result ≡ told_fired told }
{
    u64::from(matches!(told, Told::Fired(..)))
}

// Words 0 to 3: octets sent, indications, TID, fired.
fn head_words(sent: usize, told: Told, first: Indication, second: Indication) -> [u64; 4]
    ensures { result ≡ sent ∷ (by_indication 0 1 1 1 1 first + by_indication 0 1 1 1 1 second) ∷ told_tid told ∷ told_fired told ∷ [] }
{
    let count = shown_count(first) + shown_count(second);
    [sent as u64, count, told_tid(told), told_fired(told)]
}

// Words 28 to 31: role, peer and TID of the record that was fired.
#[tactic(auto, unfolding(crate::specs::Answers::record_words))]
fn record_words(told: Told) -> [u64; 4]
    ensures { result ≡ record_words told }
{
    match told {
        Told::Fired(role, peer, tid) => [u64::from(role), u64::from(peer), u64::from(tid), 0],
        _ => [0; 4],
    }
}

// The words of what an indication shows; those of none are zeros at once.
#[tactic(auto, using(crate::proofs::Words::none_shown))]
fn store_shown(answer: &mut [u64], at: usize, i: Indication, c: Context)
    requires { at + 12 ≤ length answer.old }
    ensures { answer.new ≡ put answer.old at (shown_words (shown_of i c)) }
{
    if shown_count(i) == 0 {
        let none = [0u64; 12];
        base_lists::store(answer, at, &none);
    } else {
        let words = step_shown::words_of(step_shown::shown_of(i, c));
        base_lists::store(answer, at, &words);
    }
}

#[tactic(auto, using(step_shown::proofs::Back::twelve_words, crate::proofs::Words::four_stores, crate::proofs::Words::head_shown, crate::proofs::Words::head_length), unfolding(crate::specs::Answers::answer_words))]
fn store_answer(
    answer: &mut [u64],
    sent: usize,
    told: Told,
    first: Indication,
    second: Indication,
    c: Context,
)
    requires { 32 ≤ length answer.old }
    ensures { answer.new ≡ put answer.old 0 (answer_words sent told (shown_of first c) (shown_of second c)) }
{
    let head = head_words(sent, told, first, second);
    base_lists::store(answer, 0, &head);
    store_shown(answer, 4, first, c);
    store_shown(answer, 16, second, c);
    let record = record_words(told);
    base_lists::store(answer, 28, &record);
}

// A responder's record tells nothing.
#[tactic(auto, unfolding(crate::specs::Answers::role_cost))]
fn role_cost(role: Role, sent: u32, ended: bool) -> Cost
    ensures { result ≡ role_cost role sent ended }
{
    match role {
        Role::Initiator => Cost { sent, ended },
        Role::Responder => no_cost(),
    }
}

fn record_cost(r: Record, ended: bool) -> Cost
    ensures { result ≡ role_cost (role_of r.state) r.sent ended }
{
    role_cost(r.state.role(), r.sent, ended)
}

// A call that concerns no initiator's record.
#[tactic(auto, unfolding(crate::specs::Answers::no_cost))]
pub fn no_cost() -> Cost
    ensures { result ≡ no_cost }
{
    Cost {
        sent: 0,
        ended: false,
    }
}

// What a change of a record tells; `was` is the record before it.
#[tactic(auto, unfolding(crate::specs::Answers::change_cost))]
pub fn change_cost(change: Change, was: Record) -> Cost
    ensures { result ≡ change_cost change was }
{
    match change {
        Change::Nothing => no_cost(),
        Change::Put(r) => record_cost(r, false),
        Change::Clear => record_cost(was, true),
    }
}

// Words 32 and 33.
#[tactic(auto, unfolding(crate::specs::Answers::cost_words))]
pub fn report(answer: &mut [u64], cost: Cost)
    requires { 34 ≤ length answer.old }
    ensures { answer.new ≡ put answer.old 32 (cost_words cost) }
{
    let words = [u64::from(cost.sent), u64::from(cost.ended)];
    base_lists::store(answer, 32, &words);
}

// Words 34 to 39 of an accepted call, in which the first unknown item of its PDU is told; gives the call's result on.
#[inline(never)]
#[tactic(auto, unfolding(crate::specs::Answers::more_words, crate::specs::Answers::told_after))]
pub fn tell(answer: &mut [u64], res: u64, item: Unknown) -> u64
    requires { answer_size ≤ length answer.old }
    ensures { (result ≡ res) × (answer.new ≡ told_after res answer.old (more_words item)) }
{
    if res == 0 {
        let more = [u64::from(item.identity), item.place as u64, 0, 0, 0, 0];
        base_lists::store(answer, 34, &more);
    }
    res
}

// Gives the words of a turn that sent this much.
#[tactic(auto, unfolding(crate::specs::Answers::turn_words))]
pub fn give(answer: &mut [u64], sent: usize, turn: Turn, h: Holder, c: Call)
    requires { (32 ≤ length answer.old) × (h.place < records_bound) }
    ensures { answer.new ≡ put answer.old 0 (turn_words sent turn h c) }
{
    let told = step_plan::told_of(c.tells, h);
    let context = step_plan::context_of(h, c);
    store_answer(answer, sent, told, turn.first, turn.second, context);
}
