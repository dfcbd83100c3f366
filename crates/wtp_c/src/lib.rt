// The C interface (include/wtp.h): each function of wtp under its C name, with the same contract; libwtp.a is made of it.
#![tactic(auto)]

ghost use Rattle.std.specs.Prelude.{◌≡◌, [], length, ltb};
ghost use Rattle.step_outcome.specs.Carry.{lent};
ghost use Rattle.table_fresh.specs.Fresh.{table_bytes, fresh_answer, fresh_number, table_after_fresh};
ghost use Rattle.c_codec.specs.Calls.{read_number_is, fields_after, write_number, write_output, write_answer, separate_number, part_after, join_number, join_output, join_answer};
ghost use Rattle.c_parts.specs.Parts.{read_part_number, read_part_fields, data_number, data_output};
ghost use Rattle.call_plans.specs.Calls.{Call};
ghost use Rattle.call_deadline.specs.Deadlines.{deadline_number, due_after};
ghost use Rattle.table_salvage.specs.Salvage.{salvage_number, table_salvaged, list_salvaged};
ghost use Rattle.wtp.specs.Engine.{called, called_by};

// The bytes of a table for 1 to 48 records, else 0.
#[unsafe(no_mangle)]
pub extern "C" fn wtp_table_bytes(records: u64) -> u64
    ensures { result ≡ table_bytes records }
{
    wtp::wtp_table_bytes(records)
}

// Makes a table fresh.
#[unsafe(no_mangle)]
pub extern "C" fn wtp_fresh(table: &mut [u8], settings: &[u64], first_tid: u64) -> u64
    ensures { (result ≡ fresh_number (fresh_answer (length table.old) settings.now first_tid)) × (table.new ≡ table_after_fresh (fresh_answer (length table.old) settings.now first_tid) table.old settings.now first_tid) }
{
    wtp::wtp_fresh(table, settings, first_tid)
}

// Reads a PDU into 88 words.
#[unsafe(no_mangle)]
pub extern "C" fn wtp_read(octets: &[u8], fields: &mut [u64]) -> u64
    ensures { (result ≡ read_number_is octets.now fields.old) × (fields.new ≡ fields_after octets.now fields.old) }
{
    wtp::wtp_read(octets, fields)
}

// Writes the PDU that 88 words say, whose parts lie in `bytes`, at the start of the output.
#[unsafe(no_mangle)]
pub extern "C" fn wtp_write(fields: &[u64], bytes: &[u8], out: &mut [u8], answer: &mut [u64]) -> u64
    ensures { (result ≡ write_number fields.now bytes.now out.old answer.old) × (out.new ≡ write_output fields.now bytes.now out.old answer.old) × (answer.new ≡ write_answer fields.now bytes.now out.old answer.old) }
{
    wtp::wtp_write(fields, bytes, out, answer)
}

// Separates a datagram: start and length of its k-th PDU, and how many there are.
#[unsafe(no_mangle)]
pub extern "C" fn wtp_separate(datagram: &[u8], k: u64, part: &mut [u64]) -> u64
    ensures { (result ≡ separate_number datagram.now k part.old) × (part.new ≡ part_after datagram.now k part.old) }
{
    wtp::wtp_separate(datagram, k, part)
}

// Joins PDUs of these lengths, one after the other in `bytes`, to a datagram at the start of the output.
#[unsafe(no_mangle)]
pub extern "C" fn wtp_join(bytes: &[u8], lengths: &[u64], out: &mut [u8], answer: &mut [u64]) -> u64
    ensures { (result ≡ join_number bytes.now lengths.now out.old answer.old) × (out.new ≡ join_output bytes.now lengths.now out.old answer.old) × (answer.new ≡ join_answer bytes.now lengths.now out.old answer.old) }
{
    wtp::wtp_join(bytes, lengths, out, answer)
}

// Reads the k-th PDU of a datagram into 88 words.
#[unsafe(no_mangle)]
pub extern "C" fn wtp_read_part(datagram: &[u8], k: u64, fields: &mut [u64]) -> u64
    ensures { (result ≡ read_part_number datagram.now k fields.old) × (fields.new ≡ read_part_fields datagram.now k fields.old) }
{
    wtp::wtp_read_part(datagram, k, fields)
}

// Copies the data of an answer's indication, a part of the datagram or of the store, to the start of the output.
#[unsafe(no_mangle)]
pub extern "C" fn wtp_data<'a>(
    datagram: &'a [u8],
    store: &'a [u8],
    answer: &[u64],
    k: u64,
    out: &mut [u8],
) -> u64
    ensures { (result ≡ data_number datagram.now store.now answer.now k out.old) × (out.new ≡ data_output datagram.now store.now answer.now k out.old) }
{
    wtp::wtp_data(datagram, store, answer, k, out)
}

// A user's request of a class with its data.
#[unsafe(no_mangle)]
pub extern "C" fn wtp_request(
    table: &mut [u8],
    store: &mut [u8],
    out: &mut [u8],
    answer: &mut [u64],
    time: u64,
    peer: u64,
    class: u64,
    user_ack: u64,
    user: &[u8],
) -> u64
    ensures { called result table.new store.new out.new answer.new ≡ called_by (Call.Request time peer class (ltb 0 user_ack)) (lent table.old store.old out.old user.now []) answer.old }
{
    wtp::wtp_request(table, store, out, answer, time, peer, class, user_ack, user)
}

// A user's answer with exit information.
#[unsafe(no_mangle)]
pub extern "C" fn wtp_answer(
    table: &mut [u8],
    store: &mut [u8],
    out: &mut [u8],
    answer: &mut [u64],
    time: u64,
    role: u64,
    peer: u64,
    tid: u64,
    exit: &[u8],
) -> u64
    ensures { called result table.new store.new out.new answer.new ≡ called_by (Call.Answer time role peer tid) (lent table.old store.old out.old [] exit.now) answer.old }
{
    wtp::wtp_answer(table, store, out, answer, time, role, peer, tid, exit)
}

// A user's result with its data.
#[unsafe(no_mangle)]
pub extern "C" fn wtp_result(
    table: &mut [u8],
    store: &mut [u8],
    out: &mut [u8],
    answer: &mut [u64],
    time: u64,
    role: u64,
    peer: u64,
    tid: u64,
    user: &[u8],
) -> u64
    ensures { called result table.new store.new out.new answer.new ≡ called_by (Call.Result time role peer tid) (lent table.old store.old out.old user.now []) answer.old }
{
    wtp::wtp_result(table, store, out, answer, time, role, peer, tid, user)
}

// A user's abort with its reason.
#[unsafe(no_mangle)]
pub extern "C" fn wtp_abort(
    table: &mut [u8],
    store: &mut [u8],
    out: &mut [u8],
    answer: &mut [u64],
    time: u64,
    role: u64,
    peer: u64,
    tid: u64,
    reason: u8,
) -> u64
    ensures { called result table.new store.new out.new answer.new ≡ called_by (Call.Abort time role peer tid reason) (lent table.old store.old out.old [] []) answer.old }
{
    wtp::wtp_abort(table, store, out, answer, time, role, peer, tid, reason)
}

// One PDU that came from a peer.
#[unsafe(no_mangle)]
pub extern "C" fn wtp_receive(
    table: &mut [u8],
    store: &mut [u8],
    out: &mut [u8],
    answer: &mut [u64],
    time: u64,
    peer: u64,
    octets: &[u8],
) -> u64
    ensures { called result table.new store.new out.new answer.new ≡ called_by (Call.Receive time peer) (lent table.old store.old out.old octets.now []) answer.old }
{
    wtp::wtp_receive(table, store, out, answer, time, peer, octets)
}

// Fires one due record.
#[unsafe(no_mangle)]
pub extern "C" fn wtp_timer(
    table: &mut [u8],
    store: &mut [u8],
    out: &mut [u8],
    answer: &mut [u64],
    time: u64,
) -> u64
    ensures { called result table.new store.new out.new answer.new ≡ called_by (Call.Timer time) (lent table.old store.old out.old [] []) answer.old }
{
    wtp::wtp_timer(table, store, out, answer, time)
}

// Tells the earliest deadline and its record in five words, and changes nothing else: it takes no time and is no entry of a history.
#[unsafe(no_mangle)]
pub extern "C" fn wtp_deadline(table: &[u8], due: &mut [u64]) -> u64
    ensures { (result ≡ deadline_number table.now due.old) × (due.new ≡ due_after table.now due.old) }
{
    wtp::wtp_deadline(table, due)
}

// Fires the record that is named, if it is due.
#[unsafe(no_mangle)]
pub extern "C" fn wtp_fire(
    table: &mut [u8],
    store: &mut [u8],
    out: &mut [u8],
    answer: &mut [u64],
    time: u64,
    role: u64,
    peer: u64,
    tid: u64,
) -> u64
    ensures { called result table.new store.new out.new answer.new ≡ called_by (Call.Fire time role peer tid) (lent table.old store.old out.old [] []) answer.old }
{
    wtp::wtp_fire(table, store, out, answer, time, role, peer, tid)
}

// Makes a damaged table well formed: zeroes the places that can't stay, and lists them in 97 words with their reasons. It takes no time and is no entry of a history.
#[unsafe(no_mangle)]
pub extern "C" fn wtp_salvage(table: &mut [u8], list: &mut [u64]) -> u64
    ensures { (result ≡ salvage_number table.old list.old) × (table.new ≡ table_salvaged table.old list.old) × (list.new ≡ list_salvaged table.old list.old) }
{
    wtp::wtp_salvage(table, list)
}
