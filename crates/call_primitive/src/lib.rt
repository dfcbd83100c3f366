// What a user's answer, result or abort is refused for, and what an accepted one brings: the three primitives that name a record.
#![tactic(auto)]

ghost use Rattle.std.specs.Prelude.{◌≡◌, ◌+◌, ◌*◌, ◌≤◌, length};
ghost use Rattle.base_layout.specs.Layout.{header_size, record_size, exit_bound, cell_size};
ghost use Rattle.table_finding.specs.Finding.{Within};
ghost use Rattle.call_primitive.specs.Primitives.{named_by, is_responder, exit_refused, too_much_is, refuses_row, found_place, primitive_place, primitive_row, primitive_given, primitive_call};
ghost use Rattle.table_well_formed.specs.WellFormed.{WellFormed};

use base_numbers::Refusal;
use row_events::{Event, Row};
use row_turns::Given;
use step_carrying::Coming;
use step_plan::{Call, Part, Tells};
use table_record::Role;

// A primitive: which, when, the record it names, an abort's reason, the lengths of its data and of its exit information.
#[derive(Clone, Copy)]
pub struct Primitive {
    pub event: Event,
    pub time: u64,
    pub role: u64,
    pub peer: u64,
    pub tid: u64,
    pub reason: u8,
    pub len: usize,
    pub exit_len: usize,
}

// The record that a primitive names; a role other than 0 and 1 names none.
#[tactic(auto, unfolding(crate::specs::Primitives::named_by))]
pub fn named_by(t: &[u8], role: u64, peer: u64, tid: u64) -> Option<usize>
    requires { WellFormed t.now }
    ensures { result ≡ named_by t.now role peer tid }
{
    match role {
        0 => table_finding::named(t, table_layout::records(t), Role::Initiator, peer, tid),
        1 => table_finding::named(t, table_layout::records(t), Role::Responder, peer, tid),
        _ => None,
    }
}

// A live class 2 responder record takes no exit information.
#[tactic(auto, unfolding(crate::specs::Primitives::exit_refused))]
fn exit_refused(t: &[u8], found: Option<usize>) -> bool
    requires { Within t.now found }
    ensures { result ≡ exit_refused t.now found }
{
    match found {
        Some(i) => {
            let state = table_layout::record_at(t, i).state;
            state.class() == 2 && is_responder(state.role())
        }
        None => false,
    }
}

fn is_responder(role: Role) -> bool
    ensures { result ≡ is_responder role }
{
    matches!(role, Role::Responder)
}

// Number 4: too much data or exit information, or exit information where none may be.
#[tactic(auto, unfolding(crate::specs::Primitives::too_much_is))]
fn too_much(t: &[u8], p: Primitive, found: Option<usize>) -> bool
    requires { Within t.now found }
    ensures { result ≡ too_much_is t.now p found }
{
    base_layout::CELL_SIZE < p.len
        || base_layout::EXIT_BOUND < p.exit_len
        || 0 < p.exit_len && exit_refused(t, found)
}

// The row of a primitive that isn't allowed.
#[tactic(auto, unfolding(crate::specs::Primitives::refuses_row))]
fn refuses(row: Row) -> bool
    ensures { result ≡ refuses_row row }
{
    matches!(row, Row::NotAllowed)
}

// With the named record found: the lowest of the numbers 4, 8, 9 that applies, or its place.
#[tactic(auto, unfolding(crate::specs::Primitives::found_place, crate::specs::Primitives::not_allowed, call_refusal::specs::Judging::lowest, step_opening::specs::Opens::place_for))]
fn with_found(t: &[u8], found: Option<usize>, p: Primitive) -> Result<usize, Refusal>
    requires { Within t.now found }
    ensures { result ≡ found_place t.now found p }
{
    if too_much(t, p, found) {
        return Err(Refusal::TooLong);
    }
    let place = found.ok_or(Refusal::NoRecord)?;
    if refuses(step_live::row_at(t, place, p.event)) {
        return Err(Refusal::NotAllowed);
    }
    Ok(place)
}

// A primitive over a store and an output of these lengths: a number, or the place of its record.
#[tactic(auto, using(crate::proofs::Named::found_within, crate::proofs::Accepted::entered))]
pub fn primitive_place(
    t: &[u8],
    store: usize,
    output: usize,
    p: Primitive,
) -> Result<usize, Refusal>
    ensures { result ≡ primitive_place t.now store output p }
{
    call_refusal::peer_entry(t, store, output, p.time, p.peer)?;
    with_found(t, named_by(t, p.role, p.peer, p.tid), p)
}

// The row that an accepted primitive meets in the record at this place.
#[tactic(auto, unfolding(crate::specs::Primitives::primitive_row))]
pub fn primitive_row(t: &[u8], place: usize, p: Primitive) -> Coming
    requires { header_size + place * record_size + record_size ≤ length t.now }
    ensures { result ≡ primitive_row t.now place p }
{
    Coming::Live(place, step_live::row_at(t, place, p.event))
}

#[tactic(auto, unfolding(crate::specs::Primitives::primitive_given))]
pub fn primitive_given(p: Primitive) -> Given
    requires { (p.len ≤ cell_size) × (p.exit_len ≤ exit_bound) }
    ensures { result ≡ primitive_given p }
{
    Given {
        time: p.time,
        kind: 0,
        reason: p.reason,
        len: p.len as u32,
        exit_len: p.exit_len as u8,
        unknown: 0,
    }
}

#[tactic(auto, unfolding(crate::specs::Primitives::primitive_call))]
pub fn primitive_call(p: Primitive) -> Call
    ensures { result ≡ primitive_call p }
{
    let none = step_plan::no_part();
    Call {
        message: Part {
            start: 0,
            len: p.len,
        },
        info: none,
        user: none,
        tells: Tells::Nothing,
    }
}
