// What a request is refused for, and what an accepted one brings.
#![tactic(auto)]

ghost use Rattle.std.specs.Prelude.{◌≡◌, ◌≤◌, length};
ghost use Rattle.base_layout.specs.Layout.{header_size, cell_size};
ghost use Rattle.table_well_formed.specs.WellFormed.{WellFormed};
ghost use Rattle.call_refusal.specs.Judging.{lowest};
ghost use Rattle.call_request.specs.Requests.{own_tests, none_free, entry_tests, free_place, request_place, request_opens, request_given, request_call};

use base_numbers::Refusal;
use row_turns::Given;
use step_carrying::Coming;
use step_commit::GenTid;
use step_plan::{Call, Holder, Part, Tells};
use table_record::Role;

// A request: when, to whom, of which class, with or without user acknowledgement, and how many octets of data.
#[derive(Clone, Copy)]
pub struct Request {
    pub time: u64,
    pub peer: u64,
    pub class: u64,
    pub user_ack: bool,
    pub len: usize,
}

// The lowest of the numbers 4 to 6 that applies, in a well-formed table.
#[tactic(auto, unfolding(call_refusal::specs::Judging::lowest))]
fn own_refusal(t: &[u8], q: Request) -> Result<(), Refusal>
    requires { WellFormed t.now }
    ensures { result ≡ lowest (own_tests t.now q) }
{
    if base_layout::CELL_SIZE < q.len {
        return Err(Refusal::TooLong);
    }
    if 2 < q.class {
        return Err(Refusal::WrongClass);
    }
    let tid = table_layout::gen_tid_of(t);
    if table_finding::tid_in_use(t, table_layout::records(t), u64::from(tid)) {
        return Err(Refusal::TidInUse);
    }
    Ok(())
}

// The lowest of the numbers 1 to 6 that applies.
#[tactic(auto, using(call_refusal::proofs::Going::entered))]
fn request_refusal(t: &[u8], store: usize, output: usize, q: Request) -> Result<(), Refusal>
    ensures { result ≡ lowest (entry_tests t.now store output q) }
{
    call_refusal::peer_entry(t, store, output, q.time, q.peer)?;
    own_refusal(t, q)
}

// Number 7: a record is wanted and none is free.
#[tactic(auto, unfolding(crate::specs::Requests::none_free))]
fn none_free(free: Option<usize>, class: u64) -> bool
    ensures { result ≡ none_free free class }
{
    0 < class && free.is_none()
}

// With the lowest free record found: number 7, or its place.
#[tactic(auto, unfolding(crate::specs::Requests::free_place, call_refusal::specs::Judging::lowest))]
fn with_place(free: Option<usize>, q: Request) -> Result<usize, Refusal>
    ensures { result ≡ free_place free q }
{
    if none_free(free, q.class) {
        return Err(Refusal::TableFull);
    }
    Ok(step_opening::place_for(free))
}

// A request over a store and an output of these lengths: a number, or the place of its record.
pub fn request_place(t: &[u8], store: usize, output: usize, q: Request) -> Result<usize, Refusal>
    ensures { result ≡ request_place t.now store output q }
{
    request_refusal(t, store, output, q)?;
    with_place(table_finding::free(t, table_layout::records(t)), q)
}

// The opening of an accepted request at this place: an initiator's, under GenTID, which is counted.
#[tactic(auto, unfolding(crate::specs::Requests::request_opens, crate::specs::Requests::requester, crate::specs::Requests::counted_by))]
pub fn request_opens(t: &[u8], place: usize, q: Request) -> Coming
    requires { header_size ≤ length t.now }
    ensures { result ≡ request_opens t.now place q }
{
    let tid = table_layout::gen_tid_of(t);
    let class = (q.class % 256) as u8;
    let due = table_layout::tidnew_due(t);
    let h = Holder {
        place,
        role: Role::Initiator,
        peer: (q.peer % 256) as u8,
        tid,
        class,
        up: q.user_ack,
        tidnew: table_tids::carries_tidnew(class, due),
        len: 0,
    };
    let next = table_tids::next_tid(tid);
    let counted = GenTid {
        tid: next,
        tidnew_due: table_tids::due_after(class, due, next),
    };
    Coming::Opens(row_choice::requested(class), h, Some(counted))
}

#[tactic(auto, unfolding(crate::specs::Requests::request_given))]
pub fn request_given(q: Request) -> Given
    requires { q.len ≤ cell_size }
    ensures { result ≡ request_given q }
{
    Given {
        time: q.time,
        kind: 0,
        reason: 0,
        len: q.len as u32,
        exit_len: 0,
        unknown: 0,
    }
}

#[tactic(auto, unfolding(crate::specs::Requests::request_call))]
pub fn request_call(q: Request) -> Call
    ensures { result ≡ request_call q }
{
    let none = step_plan::no_part();
    Call {
        message: Part {
            start: 0,
            len: q.len,
        },
        info: none,
        user: none,
        tells: Tells::Tid,
    }
}
