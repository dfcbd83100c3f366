// The functions of the C interface of the Reliable Data Service (include/rds.h): words in and words out, over the proved crates. rds_c exports them.
#![tactic(auto)]

ghost use Rattle.std.specs.Prelude.{◌≡◌, ◌≤◌, length};
ghost use Rattle.base_lists.specs.Seq.{put};
ghost use Rattle.rds_lists.specs.Sizes.{fields_least, part_least};
ghost use Rattle.rds.specs.Calls.{is_on, read_number_is, fields_after, part_after, put_words, put_number, put_output, put_answer, write_number, write_output, write_answer};
ghost use Rattle.rds_book.specs.Book.{book_size};
ghost use Rattle.rds_lent.specs.Left.{left};
ghost use Rattle.rds_ports.specs.Ports.{reserve_of, release_of, again_of, abandon_number, abandon_after};
ghost use Rattle.rds_shown.specs.Shown.{fresh_number, fresh_after, port_of};
ghost use Rattle.rds_receiving.specs.Receiving.{receive_of};

use base_numbers::Refusal;

// A flag is off with 0 and on with any other value.
fn is_on(flag: u64) -> bool
    ensures { result ≡ is_on flag }
{
    flag != 0
}

// Reads a frame into 100 words.
#[tactic(auto, unfolding(crate::specs::Calls::read_number_is, crate::specs::Calls::fields_after))]
pub fn rds_read(frame: &[u8], from_network: u64, fields: &mut [u64]) -> u64
    ensures { (result ≡ read_number_is fields_least frame.now from_network fields.old) × (fields.new ≡ fields_after frame.now from_network fields.old) }
{
    if fields.len() < 100 {
        return u64::from(Refusal::WrongSize);
    }
    let Some(f) = rds_reading::read(frame, is_on(from_network)) else {
        return u64::from(Refusal::WrongFrame);
    };
    rds_words::store_fields(fields, f);
    0
}

// Judges a frame whole, and tells where the datagram lies in it, its ports and its number.
#[tactic(auto, unfolding(crate::specs::Calls::read_number_is, crate::specs::Calls::part_after))]
pub fn rds_take(frame: &[u8], from_network: u64, part: &mut [u64]) -> u64
    ensures { (result ≡ read_number_is part_least frame.now from_network part.old) × (part.new ≡ part_after frame.now from_network part.old) }
{
    if part.len() < 8 {
        return u64::from(Refusal::WrongSize);
    }
    let Some(f) = rds_reading::read(frame, is_on(from_network)) else {
        return u64::from(Refusal::WrongFrame);
    };
    let len = rds_reading::information_length(frame, f.head.end);
    base_lists::store(part, 0, &rds_words::part_words(f.head, len));
    0
}

// The answer of rds_put: the frame's length, and the next number.
#[tactic(auto, unfolding(crate::specs::Calls::put_words))]
fn store_put(answer: &mut [u64], len: usize, number: u64)
    requires { 16 ≤ length answer.old }
    ensures { answer.new ≡ put answer.old 0 (put_words len number) }
{
    let mut words = [0; 16];
    words[0] = len as u64;
    words[12] = (number % 8 + 1) % 8;
    base_lists::store(answer, 0, &words);
}

// Puts a datagram into a UI frame at the start of the output.
#[tactic(auto, unfolding(crate::specs::Calls::put_number, crate::specs::Calls::put_output, crate::specs::Calls::put_answer))]
pub fn rds_put(
    datagram: &[u8],
    ports: u64,
    source: u64,
    destination: u64,
    number: u64,
    out: &mut [u8],
    answer: &mut [u64],
) -> u64
    ensures { (result ≡ put_number datagram.now ports source destination number out.old answer.old) × (out.new ≡ put_output datagram.now ports source destination number out.old answer.old) × (answer.new ≡ put_answer datagram.now ports source destination number out.old answer.old) }
{
    if answer.len() < 16 {
        return u64::from(Refusal::WrongSize);
    }
    match rds_datagram::put(datagram, is_on(ports), source, destination, number, out) {
        Ok(n) => {
            store_put(answer, n, number);
            0
        }
        Err(it) => u64::from(it),
    }
}

// Writes the frame that 100 words say, its parts in the lent octets, at the start of the output.
#[tactic(auto, unfolding(rds_lent::specs::Asked::length_words, crate::specs::Calls::write_number, crate::specs::Calls::write_output, crate::specs::Calls::write_answer, crate::specs::Calls::written_words))]
pub fn rds_write(
    fields: &[u64],
    bytes: &[u8],
    from_network: u64,
    out: &mut [u8],
    answer: &mut [u64],
) -> u64
    ensures { (result ≡ write_number fields.now bytes.now from_network out.old answer.old) × (out.new ≡ write_output fields.now bytes.now from_network out.old answer.old) × (answer.new ≡ write_answer fields.now bytes.now from_network out.old answer.old) }
{
    if answer.len() < 16 {
        return u64::from(Refusal::WrongSize);
    }
    match rds_writing::write(fields, bytes, is_on(from_network), out) {
        Ok(n) => {
            rds_lent::store_length(answer, n);
            0
        }
        Err(it) => u64::from(it),
    }
}

// The octets of a port book.
pub fn rds_ports_bytes() -> u64
    ensures { result ≡ book_size }
{
    rds_book::BOOK_SIZE as u64
}

// Makes a port book in which nothing is kept.
pub fn rds_ports_fresh(book: &mut [u8], network: u64, formats: u64) -> u64
    ensures { (result ≡ fresh_number book.old formats) × (book.new ≡ fresh_after book.old (is_on network) formats) }
{
    rds_lent::number_given(rds_shown::fresh(book, is_on(network), formats))
}

// Asks the peer for a port.
pub fn rds_reserve(
    book: &mut [u8],
    out: &mut [u8],
    answer: &mut [u64],
    own: u64,
    peers: u64,
    with_format: u64,
    app: &[u8],
) -> u64
    ensures { left result book.new out.new answer.new ≡ reserve_of book.old out.old answer.old own peers (is_on with_format) app.now }
{
    let with = is_on(with_format);
    rds_lent::number_given(rds_ports::reserve(book, out, answer, own, peers, with, app))
}

// Gives a port back.
pub fn rds_release(book: &mut [u8], out: &mut [u8], answer: &mut [u64], own: u64) -> u64
    ensures { left result book.new out.new answer.new ≡ release_of book.old out.old answer.old own }
{
    rds_lent::number_given(rds_ports::release(book, out, answer, own))
}

// Sends the outstanding command again.
pub fn rds_again(book: &[u8], out: &mut [u8], answer: &mut [u64]) -> u64
    ensures { left result book.now out.new answer.new ≡ again_of book.now out.old answer.old }
{
    rds_lent::number_given(rds_ports::again(book, out, answer))
}

// Gives the outstanding command up.
pub fn rds_abandon(book: &mut [u8]) -> u64
    ensures { (result ≡ abandon_number book.old) × (book.new ≡ abandon_after book.old) }
{
    rds_lent::number_given(rds_ports::abandon(book))
}

// Takes a frame from the peer.
pub fn rds_receive(book: &mut [u8], out: &mut [u8], answer: &mut [u64], frame: &[u8]) -> u64
    ensures { left result book.new out.new answer.new ≡ receive_of book.old out.old answer.old frame.now }
{
    rds_lent::number_given(rds_receiving::receive(book, out, answer, frame))
}

// Tells what is kept of a port, or with 0 of the outstanding command.
pub fn rds_port(book: &[u8], port: u64, out: &mut [u8], answer: &mut [u64]) -> u64
    ensures { left result book.now out.new answer.new ≡ port_of book.now out.old answer.old port }
{
    rds_lent::number_given(rds_shown::port(book, out, answer, port))
}
