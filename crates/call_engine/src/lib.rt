// The engine's seven calls: each is judged, and an accepted one is carried out at once.
#![tactic(auto)]

ghost use Rattle.std.specs.Prelude.{◌≡◌, [], ◌+◌, ◌*◌, ◌≤◌, ◌<◌, length, Ok};
ghost use Rattle.base_layout.specs.Layout.{header_size, record_size, time_bound, tid_bound, records_bound};
ghost use Rattle.table_layout.specs.Table.{record_at};
ghost use Rattle.step_outcome.specs.Carry.{Ready, lent};
ghost use Rattle.c_answers.specs.Handed.{called, handed_by};
ghost use Rattle.call_primitive.specs.Primitives.{primitive_plan};
ghost use Rattle.call_timer.specs.Timers.{fired_step};
ghost use Rattle.call_plans.specs.Calls.{Call};
ghost use Rattle.call_engine.specs.Calls.{gives, PlanReady};

use call_primitive::Primitive;
use call_request::Request;
use row_events::Event;

// A user's request of a class with its data.
pub fn request(
    table: &mut [u8],
    store: &mut [u8],
    output: &mut [u8],
    answer: &mut [u64],
    time: u64,
    peer: u64,
    class: u64,
    user_ack: bool,
    user: &[u8],
) -> u64
    requires { 34 ≤ length answer.old }
    ensures { called result table.new store.new output.new answer.new ≡ gives (Call.Request time peer class user_ack) (lent table.old store.old output.old user.now []) answer.old }
{
    let q = Request {
        time,
        peer,
        class,
        user_ack,
        len: user.len(),
    };
    match call_request::request_place(table, store.len(), output.len(), q) {
        Err(r) => u64::from(r),
        Ok(place) => {
            let coming = call_request::request_opens(table, place, q);
            let g = call_request::request_given(q);
            let c = call_request::request_call(q);
            step_carrying::carry(table, store, output, answer, user, &[], coming, g, c)
        }
    }
}

// A primitive that names a record, with its data and exit information.
#[inline(always)]
fn primitive(
    table: &mut [u8],
    store: &mut [u8],
    output: &mut [u8],
    answer: &mut [u64],
    given: &[u8],
    exit: &[u8],
    p: Primitive,
) -> u64
    requires plan_ready { PlanReady (lent table.old store.old output.old given.now exit.now) (primitive_plan table.old (length store.old) (length output.old) p) }
    requires in_bounds { 34 ≤ length answer.old }
    ensures { called result table.new store.new output.new answer.new ≡ handed_by (lent table.old store.old output.old given.now exit.now) (primitive_plan table.old (length store.old) (length output.old) p) answer.old }
{
    match call_primitive::primitive_place(table, store.len(), output.len(), p) {
        Err(r) => u64::from(r),
        Ok(place) => {
            let coming = call_primitive::primitive_row(table, place, p);
            let g = call_primitive::primitive_given(p);
            let c = call_primitive::primitive_call(p);
            step_carrying::carry(table, store, output, answer, given, exit, coming, g, c)
        }
    }
}

// A user's answer with exit information.
pub fn answer(
    table: &mut [u8],
    store: &mut [u8],
    output: &mut [u8],
    answer: &mut [u64],
    time: u64,
    role: u64,
    peer: u64,
    tid: u64,
    exit: &[u8],
) -> u64
    requires { 34 ≤ length answer.old }
    ensures { called result table.new store.new output.new answer.new ≡ gives (Call.Answer time role peer tid) (lent table.old store.old output.old [] exit.now) answer.old }
{
    let p = Primitive {
        event: Event::UserAnswer,
        time,
        role,
        peer,
        tid,
        reason: 0,
        len: 0,
        exit_len: exit.len(),
    };
    primitive(table, store, output, answer, &[], exit, p)
}

// A user's result with its data.
pub fn result(
    table: &mut [u8],
    store: &mut [u8],
    output: &mut [u8],
    answer: &mut [u64],
    time: u64,
    role: u64,
    peer: u64,
    tid: u64,
    user: &[u8],
) -> u64
    requires { 34 ≤ length answer.old }
    ensures { called result table.new store.new output.new answer.new ≡ gives (Call.Result time role peer tid) (lent table.old store.old output.old user.now []) answer.old }
{
    let p = Primitive {
        event: Event::UserResult,
        time,
        role,
        peer,
        tid,
        reason: 0,
        len: user.len(),
        exit_len: 0,
    };
    primitive(table, store, output, answer, user, &[], p)
}

// A user's abort with its reason.
pub fn abort(
    table: &mut [u8],
    store: &mut [u8],
    output: &mut [u8],
    answer: &mut [u64],
    time: u64,
    role: u64,
    peer: u64,
    tid: u64,
    reason: u8,
) -> u64
    requires { 34 ≤ length answer.old }
    ensures { called result table.new store.new output.new answer.new ≡ gives (Call.Abort time role peer tid reason) (lent table.old store.old output.old [] []) answer.old }
{
    let p = Primitive {
        event: Event::UserAbort,
        time,
        role,
        peer,
        tid,
        reason,
        len: 0,
        exit_len: 0,
    };
    primitive(table, store, output, answer, &[], &[], p)
}

// One received PDU.
pub fn receive(
    table: &mut [u8],
    store: &mut [u8],
    output: &mut [u8],
    answer: &mut [u64],
    time: u64,
    peer: u64,
    octets: &[u8],
) -> u64
    requires { 34 ≤ length answer.old }
    ensures { called result table.new store.new output.new answer.new ≡ gives (Call.Receive time peer) (lent table.old store.old output.old octets.now []) answer.old }
{
    match call_receive::receive_refusal(
        table,
        store.len(),
        output.len(),
        time,
        peer,
        octets.len(),
    ) {
        Err(r) => u64::from(r),
        Ok(()) => {
            match call_receive::receive_turn(table, time, (peer % 256) as u8, octets) {
                None => step_carrying::idle(table, answer, time),
                Some(a) => step_carrying::carry(
                    table,
                    store,
                    output,
                    answer,
                    octets,
                    &[],
                    a.coming,
                    a.given,
                    a.call,
                ),
            }
        }
    }
}

// Fires the live record at a place.
fn fire(
    table: &mut [u8],
    store: &mut [u8],
    output: &mut [u8],
    answer: &mut [u64],
    place: usize,
    time: u64,
) -> u64
    requires ready { Ready (lent table.old store.old output.old [] []) (fired_step table.old place time) }
    requires record_size_in_bounds { (header_size + place * record_size + record_size ≤ length table.old) × (place < records_bound) × ((record_at table.old place).tid ≤ tid_bound) × (time ≤ time_bound) }
    requires in_bounds { 34 ≤ length answer.old }
    ensures { called result table.new store.new output.new answer.new ≡ handed_by (lent table.old store.old output.old [] []) (Ok (fired_step table.old place time)) answer.old }
{
    let coming = call_timer::fired_row(table, place);
    let g = call_timer::fired_given(time);
    let c = call_timer::fired_call();
    step_carrying::carry(table, store, output, answer, &[], &[], coming, g, c)
}

// The timer: fires one due record.
pub fn timer(
    table: &mut [u8],
    store: &mut [u8],
    output: &mut [u8],
    answer: &mut [u64],
    time: u64,
) -> u64
    requires { 34 ≤ length answer.old }
    ensures { called result table.new store.new output.new answer.new ≡ gives (Call.Timer time) (lent table.old store.old output.old [] []) answer.old }
{
    match call_refusal::entry(table, store.len(), output.len(), time) {
        Err(r) => u64::from(r),
        Ok(()) => {
            match table_finding::due(table, table_layout::records(table), time) {
                Some(place) => fire(table, store, output, answer, place, time),
                None => step_carrying::idle(table, answer, time),
            }
        }
    }
}

// Fires the record named, which is due.
pub fn fire_named(
    table: &mut [u8],
    store: &mut [u8],
    output: &mut [u8],
    answer: &mut [u64],
    time: u64,
    role: u64,
    peer: u64,
    tid: u64,
) -> u64
    requires { 34 ≤ length answer.old }
    ensures { called result table.new store.new output.new answer.new ≡ gives (Call.Fire time role peer tid) (lent table.old store.old output.old [] []) answer.old }
{
    match call_fire::fire_place(table, store.len(), output.len(), time, role, peer, tid) {
        Err(r) => u64::from(r),
        Ok(place) => fire(table, store, output, answer, place, time),
    }
}
