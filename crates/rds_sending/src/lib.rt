// The frames that the book's calls send: our outstanding command, a response, an ERROR response.
#![tactic(auto)]

ghost use Rattle.std.specs.Prelude.{◌≡◌, ◌≤◌, length};
ghost use Rattle.base_lists.specs.Seq.{put};
ghost use Rattle.rds_book.specs.Book.{book_size, place_of};
ghost use Rattle.rds_sending.specs.Sent.{command_octet, response_octet, ports_octet, asking_head, offered, command_frame, answer_frame, error_frame};

use rds_book::Place;

// Octet 1 of a command of ours.
#[tactic(auto, unfolding(crate::specs::Sent::command_octet))]
fn command_octet(book: &[u8]) -> u8
    requires { length book.now ≡ book_size }
    ensures { result ≡ command_octet book.now }
{
    if book[0] == 1 { 116 } else { 112 }
}

// Octet 1 of a response of ours.
#[tactic(auto, unfolding(crate::specs::Sent::response_octet))]
fn response_octet(book: &[u8]) -> u8
    requires { length book.now ≡ book_size }
    ensures { (result ≡ response_octet book.now) × (result ≤ 116) }
{
    if book[0] == 1 { 112 } else { 116 }
}

fn ports_octet(source: u8, destination: u8) -> u8
    ensures { result ≡ ports_octet source destination }
{
    source % 16 * 16 + destination % 16
}

// The octets before the Application ID of a command.
#[tactic(auto, unfolding(crate::specs::Sent::asking_head))]
fn asking_head(book: &[u8], c: Place) -> [u8; 4]
    requires { length book.now ≡ book_size }
    ensures { result ≡ asking_head book.now c }
{
    let first = command_octet(book);
    let ports = ports_octet(c.own, c.peer);
    [first, 10, c.tag, ports]
}

// Stores the formats that a Reserve with formats offers; how many octets.
#[tactic(auto, using(base_lists::proofs::StoresAndParts::put_nil), unfolding(crate::specs::Sent::offered))]
fn put_offered(book: &[u8], out: &mut [u8], at: usize, action: u8) -> usize
    requires { (length book.now ≡ book_size) × (at ≤ 276) × (277 ≤ length out.old) × (action ≡ (place_of book.now 0).tag) }
    ensures { (result ≡ length (offered book.now)) × (out.new ≡ put out.old at (offered book.now)) × (result ≤ 1) }
{
    if action == 5 {
        base_lists::store(out, at, &[book[1]]);
        1
    } else {
        0
    }
}

// Writes our outstanding command at the start of the output; its length.
pub fn send_command(book: &[u8], out: &mut [u8]) -> usize
    requires { (length book.now ≡ book_size) × (277 ≤ length out.old) }
    ensures { (result ≡ length (command_frame book.now)) × (out.new ≡ put out.old 0 (command_frame book.now)) }
{
    let c = rds_book::place_at(book, 0);
    let head = asking_head(book, c);
    let n = rds_book::app_length(book, 0);
    base_lists::store(out, 0, &head);
    base_lists::copy(out, 4, book, 6, n);
    let more = put_offered(book, out, 4 + n, c.tag);
    4 + n + more
}

// Writes our response at the start of the output; its length.
#[tactic(auto, unfolding(crate::specs::Sent::answer_frame))]
pub fn send_answer(book: &[u8], out: &mut [u8], action: u8, format: u8, status: u16) -> usize
    requires { (length book.now ≡ book_size) × (277 ≤ length out.old) }
    ensures { (result ≡ length (answer_frame book.now action format status)) × (out.new ≡ put out.old 0 (answer_frame book.now action format status)) }
{
    let first = response_octet(book);
    let last = (status % 256) as u8;
    if action == 5 {
        base_lists::store(out, 0, &[first, 10, action, format, last]);
        5
    } else {
        base_lists::store(out, 0, &[first, 10, action, last]);
        4
    }
}

// Writes an ERROR response to a command with these ports at the start of the output; its length.
#[tactic(auto, unfolding(crate::specs::Sent::error_frame))]
pub fn send_error(book: &[u8], out: &mut [u8], ads: bool, source: u8, destination: u8) -> usize
    requires { (length book.now ≡ book_size) × (277 ≤ length out.old) }
    ensures { (result ≡ length (error_frame book.now ads source destination)) × (out.new ≡ put out.old 0 (error_frame book.now ads source destination)) }
{
    let first = response_octet(book);
    if ads {
        let ports = ports_octet(destination, source);
        base_lists::store(out, 0, &[first + 8, 1, ports]);
        3
    } else {
        base_lists::store(out, 0, &[first, 1]);
        2
    }
}
