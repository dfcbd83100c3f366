// A frame from the peer: the book, what is sent, and the answer.
#![tactic(auto)]

ghost use Rattle.std.specs.Prelude.{◌≡◌, ◌≤◌, length};
ghost use Rattle.base_lists.specs.Seq.{put};
ghost use Rattle.rds_book.specs.Book.{book_size, app_most};
ghost use Rattle.rds_lent.specs.Left.{number_given, left};
ghost use Rattle.rds_reading.specs.Read.{frame_of};
ghost use Rattle.rds_receiving.specs.Receiving.{reservation, book_by, reply_of, turn_words, turned, receive_frame, from_peer, receive_of};

use base_numbers::Refusal;
use rds_book::Place;
use rds_frame::Head;
use rds_rows::Row;
use rds_turn::Turn;

// The fields of a port that is reserved.
#[tactic(auto, unfolding(crate::specs::Receiving::reservation))]
fn reservation(whom: u8, t: Turn) -> Place
    ensures { result ≡ reservation whom t }
{
    Place {
        tag: whom,
        own: 0,
        peer: t.peer,
        format: t.format,
    }
}

// Changes the book as the row says.
#[tactic(auto, unfolding(crate::specs::Receiving::book_by))]
fn commit(book: &mut [u8], app: &[u8], t: Turn)
    requires { (length book.old ≡ book_size) × (length app.now ≤ app_most) }
    ensures { book.new ≡ book_by book.old app.now t t.row }
{
    let p = usize::from(t.own) % 16;
    match t.row {
        Row::R5 => rds_book::keep(book, p, reservation(2, t), app),
        Row::R7 => rds_book::clear(book, p),
        Row::R10 => {
            rds_book::carry(book, 0, p, reservation(1, t));
            rds_book::clear(book, 0);
        }
        Row::R11 | Row::R13 | Row::R14 => rds_book::clear(book, 0),
        Row::R12 => {
            rds_book::clear(book, p);
            rds_book::clear(book, 0);
        }
        _ => {}
    }
}

// Sends what the row says; the length.
#[tactic(auto, using(base_lists::proofs::StoresAndParts::put_nil), unfolding(crate::specs::Receiving::reply_of))]
fn reply(book: &[u8], out: &mut [u8], t: Turn, head: Head) -> usize
    requires { (length book.now ≡ book_size) × (277 ≤ length out.old) }
    ensures { (result ≡ length (reply_of book.now t head)) × (out.new ≡ put out.old 0 (reply_of book.now t head)) }
{
    match rds_rows::event(t.row) {
        1 => rds_sending::send_answer(book, out, t.action, t.format, t.status),
        3 => rds_sending::send_error(book, out, head.ads, head.source, head.destination),
        _ => 0,
    }
}

// The words of the answer.
#[tactic(auto, unfolding(crate::specs::Receiving::turn_words))]
fn turn_words(n: usize, t: Turn) -> [u64; 16]
    ensures { result ≡ turn_words n t }
{
    let mut words = [0; 16];
    words[0] = n as u64;
    words[1] = rds_rows::event(t.row);
    words[2] = u64::from(t.action);
    words[3] = u64::from(t.status);
    words[4] = u64::from(t.own);
    words[5] = u64::from(t.peer);
    words[6] = u64::from(t.format);
    words[7] = u64::from(t.changed);
    words[8] = t.start as u64;
    words[9] = t.len as u64;
    words[10] = u64::from(t.m);
    words
}

// Does what a frame that isn't malformed says.
#[tactic(auto, unfolding(crate::specs::Receiving::turned))]
fn carry_out(book: &mut [u8], out: &mut [u8], answer: &mut [u64], app: &[u8], head: Head, t: Turn)
    requires { (length book.old ≡ book_size) × (277 ≤ length out.old) × (16 ≤ length answer.old) × (length app.now ≤ app_most) }
    ensures { left 0 book.new out.new answer.new ≡ turned book.old out.old answer.old app.now head t }
{
    let n = reply(book, out, t, head);
    commit(book, app, t);
    base_lists::store(answer, 0, &turn_words(n, t));
}

// Whether the peer is the network.
#[tactic(auto, unfolding(crate::specs::Receiving::from_peer))]
fn from_peer(book: &[u8]) -> bool
    requires { length book.now ≡ book_size }
    ensures { result ≡ from_peer book.now }
{
    book[0] != 1
}

#[tactic(auto, unfolding(crate::specs::Receiving::receive_frame))]
fn receive_in(
    book: &mut [u8],
    out: &mut [u8],
    answer: &mut [u64],
    frame: &[u8],
) -> Result<(), Refusal>
    requires { (length book.old ≡ book_size) × (277 ≤ length out.old) × (16 ≤ length answer.old) }
    ensures { left (number_given result) book.new out.new answer.new ≡ receive_frame book.old out.old answer.old frame.now (frame_of frame.now (from_peer book.old)) }
{
    let f = rds_reading::read(frame, from_peer(book)).ok_or(Refusal::WrongFrame)?;
    let app = rds_turn::application_of(frame, f.body);
    let t = rds_turn::turn_of(book, app, f.head.ads, f.head.kind, f.body);
    carry_out(book, out, answer, app, f.head, t);
    Ok(())
}

// Takes a frame from the peer.
#[tactic(auto, using(rds_lent::proofs::Ranges::lent_sizes), unfolding(crate::specs::Receiving::receive_of))]
pub fn receive(
    book: &mut [u8],
    out: &mut [u8],
    answer: &mut [u64],
    frame: &[u8],
) -> Result<(), Refusal>
    ensures { left (number_given result) book.new out.new answer.new ≡ receive_of book.old out.old answer.old frame.now }
{
    if rds_lent::lent_well(book, out, answer) {
        receive_in(book, out, answer, frame)
    } else {
        Err(Refusal::WrongSize)
    }
}
