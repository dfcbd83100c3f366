// The C interface of the Reliable Data Service (include/rds.h): each function of rds under its C name, with the same contract; librds.a is made of it.
#![tactic(auto)]

ghost use Rattle.std.specs.Prelude.{◌≡◌};
ghost use Rattle.rds_lists.specs.Sizes.{fields_least, part_least};
ghost use Rattle.rds.specs.Calls.{is_on, read_number_is, fields_after, part_after, put_number, put_output, put_answer, write_number, write_output, write_answer};
ghost use Rattle.rds_book.specs.Book.{book_size};
ghost use Rattle.rds_lent.specs.Left.{left};
ghost use Rattle.rds_ports.specs.Ports.{reserve_of, release_of, again_of, abandon_number, abandon_after};
ghost use Rattle.rds_shown.specs.Shown.{fresh_number, fresh_after, port_of};
ghost use Rattle.rds_receiving.specs.Receiving.{receive_of};

// Reads a frame into 100 words.
#[unsafe(no_mangle)]
pub extern "C" fn rds_read(frame: &[u8], from_network: u64, fields: &mut [u64]) -> u64
    ensures { (result ≡ read_number_is fields_least frame.now from_network fields.old) × (fields.new ≡ fields_after frame.now from_network fields.old) }
{
    rds::rds_read(frame, from_network, fields)
}

// Judges a frame whole, and tells where the datagram lies in it, its ports and its number.
#[unsafe(no_mangle)]
pub extern "C" fn rds_take(frame: &[u8], from_network: u64, part: &mut [u64]) -> u64
    ensures { (result ≡ read_number_is part_least frame.now from_network part.old) × (part.new ≡ part_after frame.now from_network part.old) }
{
    rds::rds_take(frame, from_network, part)
}

// Puts a datagram into a UI frame at the start of the output.
#[unsafe(no_mangle)]
pub extern "C" fn rds_put(
    datagram: &[u8],
    ports: u64,
    source: u64,
    destination: u64,
    number: u64,
    out: &mut [u8],
    answer: &mut [u64],
) -> u64
    ensures { (result ≡ put_number datagram.now ports source destination number out.old answer.old) × (out.new ≡ put_output datagram.now ports source destination number out.old answer.old) × (answer.new ≡ put_answer datagram.now ports source destination number out.old answer.old) }
{
    rds::rds_put(datagram, ports, source, destination, number, out, answer)
}

// Writes the frame that 100 words say, its parts in the lent octets, at the start of the output.
#[unsafe(no_mangle)]
pub extern "C" fn rds_write(
    fields: &[u64],
    bytes: &[u8],
    from_network: u64,
    out: &mut [u8],
    answer: &mut [u64],
) -> u64
    ensures { (result ≡ write_number fields.now bytes.now from_network out.old answer.old) × (out.new ≡ write_output fields.now bytes.now from_network out.old answer.old) × (answer.new ≡ write_answer fields.now bytes.now from_network out.old answer.old) }
{
    rds::rds_write(fields, bytes, from_network, out, answer)
}

// The octets of a port book.
#[unsafe(no_mangle)]
pub extern "C" fn rds_ports_bytes() -> u64
    ensures { result ≡ book_size }
{
    rds::rds_ports_bytes()
}

// Makes a port book in which nothing is kept.
#[unsafe(no_mangle)]
pub extern "C" fn rds_ports_fresh(book: &mut [u8], network: u64, formats: u64) -> u64
    ensures { (result ≡ fresh_number book.old formats) × (book.new ≡ fresh_after book.old (is_on network) formats) }
{
    rds::rds_ports_fresh(book, network, formats)
}

// Asks the peer for a port.
#[unsafe(no_mangle)]
pub extern "C" fn rds_reserve(
    book: &mut [u8],
    out: &mut [u8],
    answer: &mut [u64],
    own: u64,
    peers: u64,
    with_format: u64,
    app: &[u8],
) -> u64
    ensures { left result book.new out.new answer.new ≡ reserve_of book.old out.old answer.old own peers (is_on with_format) app.now }
{
    rds::rds_reserve(book, out, answer, own, peers, with_format, app)
}

// Gives a port back.
#[unsafe(no_mangle)]
pub extern "C" fn rds_release(book: &mut [u8], out: &mut [u8], answer: &mut [u64], own: u64) -> u64
    ensures { left result book.new out.new answer.new ≡ release_of book.old out.old answer.old own }
{
    rds::rds_release(book, out, answer, own)
}

// Sends the outstanding command again.
#[unsafe(no_mangle)]
pub extern "C" fn rds_again(book: &[u8], out: &mut [u8], answer: &mut [u64]) -> u64
    ensures { left result book.now out.new answer.new ≡ again_of book.now out.old answer.old }
{
    rds::rds_again(book, out, answer)
}

// Gives the outstanding command up.
#[unsafe(no_mangle)]
pub extern "C" fn rds_abandon(book: &mut [u8]) -> u64
    ensures { (result ≡ abandon_number book.old) × (book.new ≡ abandon_after book.old) }
{
    rds::rds_abandon(book)
}

// Takes a frame from the peer.
#[unsafe(no_mangle)]
pub extern "C" fn rds_receive(
    book: &mut [u8],
    out: &mut [u8],
    answer: &mut [u64],
    frame: &[u8],
) -> u64
    ensures { left result book.new out.new answer.new ≡ receive_of book.old out.old answer.old frame.now }
{
    rds::rds_receive(book, out, answer, frame)
}

// Tells what is kept of a port, or with 0 of the outstanding command.
#[unsafe(no_mangle)]
pub extern "C" fn rds_port(book: &[u8], port: u64, out: &mut [u8], answer: &mut [u64]) -> u64
    ensures { left result book.now out.new answer.new ≡ port_of book.now out.old answer.old port }
{
    rds::rds_port(book, port, out, answer)
}
