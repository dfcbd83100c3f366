// The functions of the C interface (include/wtp.h): words in and words out, over the proved calls. wtp_c exports them.
#![tactic(auto)]

ghost use Rattle.std.specs.Prelude.{◌≡◌, [], length, ltb};
ghost use Rattle.base_layout.specs.Layout.{answer_size};
ghost use Rattle.step_outcome.specs.Carry.{lent};
ghost use Rattle.table_fresh.specs.Fresh.{table_bytes, fresh_answer, fresh_number, table_after_fresh};
ghost use Rattle.c_codec.specs.Calls.{read_number_is, fields_after, write_number, write_output, write_answer, separate_number, part_after, join_number, join_output, join_answer};
ghost use Rattle.c_parts.specs.Parts.{read_part_number, read_part_fields, data_number, data_output};
ghost use Rattle.call_plans.specs.Calls.{Call};
ghost use Rattle.call_deadline.specs.Deadlines.{deadline_number, due_after};
ghost use Rattle.table_salvage.specs.Salvage.{salvage_number, table_salvaged, list_salvaged};
ghost use Rattle.wtp.specs.Engine.{called, called_by};

use base_numbers::Refusal;

// The bytes of a table for 1 to 48 records, else 0.
pub fn wtp_table_bytes(records: u64) -> u64
    ensures { result ≡ table_bytes records }
{
    table_fresh::table_bytes(records)
}

// Makes a table fresh.
#[inline(never)]
pub fn wtp_fresh(table: &mut [u8], settings: &[u64], first_tid: u64) -> u64
    ensures { (result ≡ fresh_number (fresh_answer (length table.old) settings.now first_tid)) × (table.new ≡ table_after_fresh (fresh_answer (length table.old) settings.now first_tid) table.old settings.now first_tid) }
{
    c_codec::make_fresh(table, settings, first_tid)
}

// Reads a PDU into 88 words.
pub fn wtp_read(octets: &[u8], fields: &mut [u64]) -> u64
    ensures { (result ≡ read_number_is octets.now fields.old) × (fields.new ≡ fields_after octets.now fields.old) }
{
    c_codec::read(octets, fields)
}

// Writes the PDU that 88 words say, whose parts lie in `bytes`, at the start of the output.
pub fn wtp_write(fields: &[u64], bytes: &[u8], out: &mut [u8], answer: &mut [u64]) -> u64
    ensures { (result ≡ write_number fields.now bytes.now out.old answer.old) × (out.new ≡ write_output fields.now bytes.now out.old answer.old) × (answer.new ≡ write_answer fields.now bytes.now out.old answer.old) }
{
    c_codec::write(fields, bytes, out, answer)
}

// Separates a datagram: start and length of its k-th PDU, and how many there are.
#[inline(never)]
pub fn wtp_separate(datagram: &[u8], k: u64, part: &mut [u64]) -> u64
    ensures { (result ≡ separate_number datagram.now k part.old) × (part.new ≡ part_after datagram.now k part.old) }
{
    c_codec::separate(datagram, k, part)
}

// Joins PDUs of these lengths, one after the other in `bytes`, to a datagram at the start of the output.
pub fn wtp_join(bytes: &[u8], lengths: &[u64], out: &mut [u8], answer: &mut [u64]) -> u64
    ensures { (result ≡ join_number bytes.now lengths.now out.old answer.old) × (out.new ≡ join_output bytes.now lengths.now out.old answer.old) × (answer.new ≡ join_answer bytes.now lengths.now out.old answer.old) }
{
    c_codec::join(bytes, lengths, out, answer)
}

// Reads the k-th PDU of a datagram into 88 words.
pub fn wtp_read_part(datagram: &[u8], k: u64, fields: &mut [u64]) -> u64
    ensures { (result ≡ read_part_number datagram.now k fields.old) × (fields.new ≡ read_part_fields datagram.now k fields.old) }
{
    c_parts::read_part(datagram, k, fields)
}

// Copies the data of an answer's indication, a part of the datagram or of the store, to the start of the output.
pub fn wtp_data<'a>(
    datagram: &'a [u8],
    store: &'a [u8],
    answer: &[u64],
    k: u64,
    out: &mut [u8],
) -> u64
    ensures { (result ≡ data_number datagram.now store.now answer.now k out.old) × (out.new ≡ data_output datagram.now store.now answer.now k out.old) }
{
    c_parts::shown_data(datagram, store, answer, k, out)
}

// The words of an answer are fewer than 40.
fn too_few(answer: &[u64]) -> bool
    ensures { result ≡ ltb (length answer.now) answer_size }
{
    answer.len() < base_layout::ANSWER_SIZE
}

// A user's request of a class with its data.
pub fn wtp_request(
    table: &mut [u8],
    store: &mut [u8],
    out: &mut [u8],
    answer: &mut [u64],
    time: u64,
    peer: u64,
    class: u64,
    user_ack: u64,
    user: &[u8],
) -> u64
    ensures { called result table.new store.new out.new answer.new ≡ called_by (Call.Request time peer class (ltb 0 user_ack)) (lent table.old store.old out.old user.now []) answer.old }
{
    if too_few(answer) {
        return u64::from(Refusal::WrongSize);
    }
    let r = call_engine::request(
        table,
        store,
        out,
        answer,
        time,
        peer,
        class,
        0 < user_ack,
        user,
    );
    c_answers::tell(answer, r, step_arrivals::no_item())
}

// A user's answer with exit information.
pub fn wtp_answer(
    table: &mut [u8],
    store: &mut [u8],
    out: &mut [u8],
    answer: &mut [u64],
    time: u64,
    role: u64,
    peer: u64,
    tid: u64,
    exit: &[u8],
) -> u64
    ensures { called result table.new store.new out.new answer.new ≡ called_by (Call.Answer time role peer tid) (lent table.old store.old out.old [] exit.now) answer.old }
{
    if too_few(answer) {
        return u64::from(Refusal::WrongSize);
    }
    let r = call_engine::answer(table, store, out, answer, time, role, peer, tid, exit);
    c_answers::tell(answer, r, step_arrivals::no_item())
}

// A user's result with its data.
pub fn wtp_result(
    table: &mut [u8],
    store: &mut [u8],
    out: &mut [u8],
    answer: &mut [u64],
    time: u64,
    role: u64,
    peer: u64,
    tid: u64,
    user: &[u8],
) -> u64
    ensures { called result table.new store.new out.new answer.new ≡ called_by (Call.Result time role peer tid) (lent table.old store.old out.old user.now []) answer.old }
{
    if too_few(answer) {
        return u64::from(Refusal::WrongSize);
    }
    let r = call_engine::result(table, store, out, answer, time, role, peer, tid, user);
    c_answers::tell(answer, r, step_arrivals::no_item())
}

// A user's abort with its reason.
pub fn wtp_abort(
    table: &mut [u8],
    store: &mut [u8],
    out: &mut [u8],
    answer: &mut [u64],
    time: u64,
    role: u64,
    peer: u64,
    tid: u64,
    reason: u8,
) -> u64
    ensures { called result table.new store.new out.new answer.new ≡ called_by (Call.Abort time role peer tid reason) (lent table.old store.old out.old [] []) answer.old }
{
    if too_few(answer) {
        return u64::from(Refusal::WrongSize);
    }
    let r = call_engine::abort(table, store, out, answer, time, role, peer, tid, reason);
    c_answers::tell(answer, r, step_arrivals::no_item())
}

// One PDU that came from a peer.
pub fn wtp_receive(
    table: &mut [u8],
    store: &mut [u8],
    out: &mut [u8],
    answer: &mut [u64],
    time: u64,
    peer: u64,
    octets: &[u8],
) -> u64
    ensures { called result table.new store.new out.new answer.new ≡ called_by (Call.Receive time peer) (lent table.old store.old out.old octets.now []) answer.old }
{
    if too_few(answer) {
        return u64::from(Refusal::WrongSize);
    }
    let r = call_engine::receive(table, store, out, answer, time, peer, octets);
    let item = step_arrivals::unknown_item(octets);
    c_answers::tell(answer, r, item)
}

// Fires one due record.
pub fn wtp_timer(
    table: &mut [u8],
    store: &mut [u8],
    out: &mut [u8],
    answer: &mut [u64],
    time: u64,
) -> u64
    ensures { called result table.new store.new out.new answer.new ≡ called_by (Call.Timer time) (lent table.old store.old out.old [] []) answer.old }
{
    if too_few(answer) {
        return u64::from(Refusal::WrongSize);
    }
    let r = call_engine::timer(table, store, out, answer, time);
    c_answers::tell(answer, r, step_arrivals::no_item())
}

// Tells the earliest deadline and its record in five words, and changes nothing else: it takes no time and is no entry of a history.
pub fn wtp_deadline(table: &[u8], due: &mut [u64]) -> u64
    ensures { (result ≡ deadline_number table.now due.old) × (due.new ≡ due_after table.now due.old) }
{
    call_deadline::deadline(table, due)
}

// Fires the record that is named, if it is due.
pub fn wtp_fire(
    table: &mut [u8],
    store: &mut [u8],
    out: &mut [u8],
    answer: &mut [u64],
    time: u64,
    role: u64,
    peer: u64,
    tid: u64,
) -> u64
    ensures { called result table.new store.new out.new answer.new ≡ called_by (Call.Fire time role peer tid) (lent table.old store.old out.old [] []) answer.old }
{
    if too_few(answer) {
        return u64::from(Refusal::WrongSize);
    }
    let r = call_engine::fire_named(table, store, out, answer, time, role, peer, tid);
    c_answers::tell(answer, r, step_arrivals::no_item())
}

// Makes a damaged table well formed: zeroes the places that can't stay, and lists them in 97 words with their reasons. It takes no time and is no entry of a history.
pub fn wtp_salvage(table: &mut [u8], list: &mut [u64]) -> u64
    ensures { (result ≡ salvage_number table.old list.old) × (table.new ≡ table_salvaged table.old list.old) × (list.new ≡ list_salvaged table.old list.old) }
{
    table_salvage::salvage(table, list)
}
