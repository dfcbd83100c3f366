// What the calls of the book ask before anything is done, and the command that is sent.
#![tactic(auto)]

ghost use Rattle.std.specs.Prelude.{◌≡◌, ◌≤◌, length};
ghost use Rattle.base_lists.specs.Seq.{put};
ghost use Rattle.rds_book.specs.Book.{book_size};
ghost use Rattle.rds_lent.specs.Left.{number_given, left, lent_well};
ghost use Rattle.rds_lent.specs.Asked.{outstanding, is_reserved, not_now, out_of_range_is, is_app, length_words, sending, reserving, releasing};

use base_numbers::Refusal;
use rds_book::Place;

// The number that a call gives back: 0, or that of its refusal.
pub fn number_given(done: Result<(), Refusal>) -> u64
    ensures { result ≡ number_given done }
{
    match done {
        Ok(()) => 0,
        Err(it) => u64::from(it),
    }
}

// Whether output, answer and book are what every call of the book needs.
#[tactic(auto, unfolding(crate::specs::Left::lent_well))]
pub fn lent_well(book: &[u8], out: &[u8], answer: &[u64]) -> bool
    ensures { result ≡ lent_well book.now out.now answer.now }
{
    16 <= answer.len() && 277 <= out.len() && rds_book::well_formed(book)
}

#[tactic(auto, unfolding(crate::specs::Asked::outstanding))]
pub fn is_outstanding(book: &[u8]) -> bool
    requires { length book.now ≡ book_size }
    ensures { result ≡ outstanding book.now }
{
    rds_book::place_at(book, 0).tag != 0
}

#[tactic(auto, unfolding(crate::specs::Asked::is_reserved))]
pub fn is_reserved(book: &[u8], own: u64) -> bool
    requires { length book.now ≡ book_size }
    ensures { result ≡ is_reserved book.now own }
{
    own != 0 && own <= 15 && rds_book::place_at(book, own as usize).tag != 0
}

#[tactic(auto, unfolding(crate::specs::Asked::not_now))]
pub fn not_now(book: &[u8], own: u64, with: bool) -> bool
    requires { length book.now ≡ book_size }
    ensures { result ≡ not_now book.now own with }
{
    is_outstanding(book) || is_reserved(book, own) || with && book[1] == 0
}

#[tactic(auto, unfolding(crate::specs::Asked::out_of_range_is))]
pub fn out_of_range(own: u64, peers: u64) -> bool
    ensures { result ≡ out_of_range_is own peers }
{
    own == 0 || 15 < own || 15 < peers
}

#[tactic(auto, unfolding(crate::specs::Asked::is_app))]
pub fn is_app(app: &[u8]) -> bool
    ensures { result ≡ is_app app.now }
{
    17 <= app.len() && app.len() <= 272 && app.len() == 17 + usize::from(app[16])
}

// The fields of a Reserve command.
#[tactic(auto, unfolding(crate::specs::Asked::reserving))]
pub fn reserving(own: u64, peers: u64, with: bool) -> Place
    requires { (own ≤ 15) × (peers ≤ 15) }
    ensures { result ≡ reserving own peers with }
{
    Place {
        tag: if with { 5 } else { 1 },
        own: own as u8,
        peer: peers as u8,
        format: 0,
    }
}

// The fields of a Release command for a reserved port.
#[tactic(auto, unfolding(crate::specs::Asked::releasing))]
pub fn releasing(book: &[u8], own: u64) -> Place
    requires { (length book.now ≡ book_size) × (own ≤ 15) }
    ensures { result ≡ releasing book.now own }
{
    let x = rds_book::place_at(book, own as usize);
    Place {
        tag: 2,
        own: own as u8,
        peer: x.peer,
        format: 0,
    }
}

#[tactic(auto, unfolding(crate::specs::Asked::length_words))]
pub fn store_length(answer: &mut [u64], len: usize)
    requires { 16 ≤ length answer.old }
    ensures { answer.new ≡ put answer.old 0 (length_words len) }
{
    let mut words = [0; 16];
    words[0] = len as u64;
    base_lists::store(answer, 0, &words);
}

// Sends the outstanding command.
#[tactic(auto, unfolding(crate::specs::Asked::sending))]
pub fn send(book: &[u8], out: &mut [u8], answer: &mut [u64])
    requires { (length book.now ≡ book_size) × (277 ≤ length out.old) × (16 ≤ length answer.old) }
    ensures { left 0 book.now out.new answer.new ≡ sending book.now out.old answer.old }
{
    let n = rds_sending::send_command(book, out);
    store_length(answer, n);
}
