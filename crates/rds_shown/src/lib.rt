// A fresh book, and what is kept of a port.
#![tactic(auto)]

ghost use Rattle.std.specs.Prelude.{◌≡◌, ◌≤◌, ◌<◌, length, replicate};
ghost use Rattle.base_lists.specs.Seq.{put};
ghost use Rattle.rds_book.specs.Book.{book_size};
ghost use Rattle.rds_lent.specs.Left.{number_given, left};
ghost use Rattle.rds_shown.specs.Shown.{fresh_book, fresh_number, fresh_after, port_words, offered_number, command_words, told_words, told_app, port_in, port_of};

use base_numbers::Refusal;
use rds_book::{BOOK_SIZE, Place};

// Makes a book: the side, the formats, and nothing kept.
#[tactic(auto, unfolding(crate::specs::Shown::fresh_book, base_lists::specs::Seq::put))]
fn put_fresh(book: &mut [u8], network: bool, formats: u8)
    requires { length book.old ≡ book_size }
    ensures { book.new ≡ fresh_book network formats }
{
    book.fill(0);
    book[0] = u8::from(network);
    book[1] = formats;
}

#[tactic(auto, unfolding(crate::specs::Shown::fresh_number, crate::specs::Shown::fresh_after))]
pub fn fresh(book: &mut [u8], network: bool, formats: u64) -> Result<(), Refusal>
    ensures { (number_given result ≡ fresh_number book.old formats) × (book.new ≡ fresh_after book.old network formats) }
{
    if book.len() != BOOK_SIZE {
        return Err(Refusal::WrongSize);
    }
    if 7 < formats {
        return Err(Refusal::WrongSetting);
    }
    put_fresh(book, network, formats as u8);
    Ok(())
}

// The formats that a command of this Action offers.
#[tactic(auto, unfolding(crate::specs::Shown::offered_number))]
fn offered(action: u8, formats: u8) -> u8
    ensures { result ≡ offered_number action formats }
{
    if action == 5 { formats } else { 0 }
}

// The words of a port that is reserved.
#[tactic(auto, unfolding(crate::specs::Shown::port_words))]
fn port_words(n: usize, p: u64, x: Place) -> [u64; 16]
    ensures { result ≡ port_words n p x }
{
    let mut words = [0; 16];
    words[0] = n as u64;
    words[4] = p;
    words[5] = u64::from(x.peer);
    words[6] = u64::from(x.format);
    words[11] = u64::from(x.tag);
    words
}

// The words of the outstanding command.
#[tactic(auto, unfolding(crate::specs::Shown::command_words))]
fn command_words(n: usize, formats: u8, c: Place) -> [u64; 16]
    ensures { result ≡ command_words n formats c }
{
    let mut words = [0; 16];
    words[0] = n as u64;
    words[2] = u64::from(c.tag);
    words[4] = u64::from(c.own);
    words[5] = u64::from(c.peer);
    words[6] = u64::from(offered(c.tag, formats));
    words
}

// The words of place p.
#[tactic(auto, unfolding(crate::specs::Shown::told_words, rds_lent::specs::Asked::length_words))]
fn told_words(book: &[u8], p: usize) -> [u64; 16]
    requires { (length book.now ≡ book_size) × (p < 16) }
    ensures { result ≡ told_words book.now p }
{
    let x = rds_book::place_at(book, p);
    if x.tag == 0 {
        return [0; 16];
    }
    let n = rds_book::app_length(book, p);
    if p == 0 {
        command_words(n, book[1], x)
    } else {
        port_words(n, p as u64, x)
    }
}

// Copies the Application ID of place p to the start of the output.
#[tactic(auto, using(base_lists::proofs::StoresAndParts::put_nil), unfolding(crate::specs::Shown::told_app, rds_book::specs::Book::app_of_is))]
fn put_app(book: &[u8], p: usize, out: &mut [u8])
    requires { (length book.now ≡ book_size) × (p < 16) × (277 ≤ length out.old) }
    ensures { out.new ≡ put out.old 0 (told_app book.now p) }
{
    if rds_book::place_at(book, p).tag != 0 {
        let n = rds_book::app_length(book, p);
        base_lists::copy(out, 0, book, 2 + p * 276 + 4, n);
    }
}

#[tactic(auto, unfolding(crate::specs::Shown::port_in))]
fn port_in(book: &[u8], out: &mut [u8], answer: &mut [u64], port: u64) -> Result<(), Refusal>
    requires { (length book.now ≡ book_size) × (277 ≤ length out.old) × (16 ≤ length answer.old) }
    ensures { left (number_given result) book.now out.new answer.new ≡ port_in book.now out.old answer.old port }
{
    if 15 < port {
        return Err(Refusal::WrongSetting);
    }
    let p = port as usize;
    put_app(book, p, out);
    base_lists::store(answer, 0, &told_words(book, p));
    Ok(())
}

// Tells what is kept of a port, or with 0 the outstanding command.
#[tactic(auto, using(rds_lent::proofs::Ranges::lent_sizes), unfolding(crate::specs::Shown::port_of))]
pub fn port(book: &[u8], out: &mut [u8], answer: &mut [u64], port: u64) -> Result<(), Refusal>
    ensures { left (number_given result) book.now out.new answer.new ≡ port_of book.now out.old answer.old port }
{
    if rds_lent::lent_well(book, out, answer) {
        port_in(book, out, answer, port)
    } else {
        Err(Refusal::WrongSize)
    }
}
