// What an accepted call does, as data: the changes of the table, the cell, the PDU to send, what the user is shown, what the answer tells.
#![tactic(auto)]

ghost use Rattle.std.specs.Prelude.{◌≡◌, ◌<◌};
ghost use Rattle.base_layout.specs.Layout.{records_bound};
ghost use Rattle.step_plan.specs.Steps.{no_part, cell_of, message_of, sender_of, place_in, context_of, told_of_is};

use base_layout::{EXIT_OFFSET, HEADER_SIZE, RECORD_SIZE};
use row_columns::Send;
use row_turns::Turn;
use step_commit::Changes;
use step_sending::Sender;
use step_shown::{Context, Place, Shown};
use table_record::Role;

// A part of a lent slice.
#[derive(Clone, Copy)]
pub struct Part {
    pub start: usize,
    pub len: usize,
}

// Whose turn it is: the record's place and name, its class, U/P and TIDnew, and the length of the message in its cell.
#[derive(Clone, Copy)]
pub struct Holder {
    pub place: usize,
    pub role: Role,
    pub peer: u8,
    pub tid: u16,
    pub class: u8,
    pub up: bool,
    pub tidnew: bool,
    pub len: u32,
}

// What the answer is to tell beside what was sent and shown.
#[derive(Clone, Copy)]
pub enum Tells {
    Nothing,
    Tid,
    Record,
}

// What a call was lent: the message to send or keep, the first Info item and the user data of its PDU.
#[derive(Clone, Copy)]
pub struct Call {
    pub message: Part,
    pub info: Part,
    pub user: Part,
    pub tells: Tells,
}

// What the answer tells: the TID of a request, or the record that was fired.
#[derive(Clone, Copy)]
pub enum Told {
    Nothing,
    Tid(u16),
    Fired(Role, u8, u16),
}

#[derive(Clone, Copy)]
pub struct Step {
    pub changes: Changes,
    pub cell: bool,
    pub message: Part,
    pub send: Send,
    pub by: Sender,
    pub first: Shown,
    pub second: Shown,
    pub told: Told,
}

// No part: nothing was lent.
#[tactic(auto, unfolding(crate::specs::Steps::no_part))]
pub fn no_part() -> Part
    ensures { result ≡ no_part }
{
    Part { start: 0, len: 0 }
}

// The message in the record's cell.
#[tactic(auto, unfolding(crate::specs::Steps::cell_of))]
fn cell_of(h: Holder) -> Part
    requires { h.place < records_bound }
    ensures { result ≡ cell_of h }
{
    Part {
        start: h.place * base_layout::CELL_SIZE,
        len: h.len as usize,
    }
}

// The message of the PDU to send.
#[tactic(auto, unfolding(crate::specs::Steps::message_of))]
fn message_of(send: Send, h: Holder, c: Call) -> Part
    requires { h.place < records_bound }
    ensures { result ≡ message_of send h c }
{
    match step_sending::source_of(send) {
        step_sending::Source::Nothing | step_sending::Source::Table => no_part(),
        step_sending::Source::Given => c.message,
        step_sending::Source::Cell => cell_of(h),
    }
}

#[tactic(auto, unfolding(crate::specs::Steps::sender_of))]
pub fn sender_of(turn: Turn, h: Holder, c: Call) -> Sender
    requires { h.place < records_bound }
    ensures { result ≡ sender_of turn h c }
{
    let message = message_of(turn.send, h, c);
    Sender {
        role: h.role,
        tid: h.tid,
        class: h.class,
        user_ack: h.up,
        tidnew: h.tidnew,
        start: message.start,
        len: message.len,
        exit_start: HEADER_SIZE + h.place * RECORD_SIZE + EXIT_OFFSET,
        exit_len: usize::from(turn.after.exit_len),
        unknown: turn.after.unknown,
    }
}

#[tactic(auto, unfolding(crate::specs::Steps::place_in))]
fn place_in(source: step_shown::Source, part: Part) -> Place
    ensures { result ≡ place_in source part }
{
    Place {
        source,
        start: part.start,
        len: part.len,
    }
}

#[tactic(auto, unfolding(crate::specs::Steps::context_of))]
pub fn context_of(h: Holder, c: Call) -> Context
    requires { h.place < records_bound }
    ensures { result ≡ context_of h c }
{
    Context {
        role: h.role,
        peer: h.peer,
        tid: h.tid,
        class: h.class,
        up: h.up,
        info: place_in(step_shown::Source::Datagram, c.info),
        user: place_in(step_shown::Source::Datagram, c.user),
        cell: place_in(step_shown::Source::Store, cell_of(h)),
    }
}

#[tactic(auto, unfolding(crate::specs::Steps::told_of_is))]
pub fn told_of(tells: Tells, h: Holder) -> Told
    ensures { result ≡ told_of_is tells h }
{
    match tells {
        Tells::Nothing => Told::Nothing,
        Tells::Tid => Told::Tid(h.tid),
        Tells::Record => Told::Fired(h.role, h.peer, h.tid),
    }
}
