// The calls of our commands: reserve, release, again, abandon.
#![tactic(auto)]

ghost use Rattle.std.specs.Prelude.{◌≡◌, ◌≤◌, length};
ghost use Rattle.rds_book.specs.Book.{book_size};
ghost use Rattle.rds_lent.specs.Left.{number_given, left};
ghost use Rattle.rds_ports.specs.Ports.{reserve_in, reserve_of, release_in, release_of, again_in, again_of, abandon_number, abandon_after};

use base_numbers::Refusal;

#[tactic(auto, using(rds_lent::proofs::Ranges::range_of, rds_lent::proofs::Ranges::app_short), unfolding(crate::specs::Ports::reserve_in))]
fn reserve_in(
    book: &mut [u8],
    out: &mut [u8],
    answer: &mut [u64],
    own: u64,
    peers: u64,
    with: bool,
    app: &[u8],
) -> Result<(), Refusal>
    requires { (length book.old ≡ book_size) × (277 ≤ length out.old) × (16 ≤ length answer.old) }
    ensures { left (number_given result) book.new out.new answer.new ≡ reserve_in book.old out.old answer.old own peers with app.now }
{
    if rds_lent::not_now(book, own, with) {
        return Err(Refusal::NotAllowed);
    }
    if rds_lent::out_of_range(own, peers) {
        return Err(Refusal::WrongSetting);
    }
    if !rds_lent::is_app(app) {
        return Err(Refusal::WrongLength);
    }
    rds_book::keep(book, 0, rds_lent::reserving(own, peers, with), app);
    rds_lent::send(book, out, answer);
    Ok(())
}

// Asks for a port: stores the command and sends it.
#[tactic(auto, using(rds_lent::proofs::Ranges::lent_sizes), unfolding(crate::specs::Ports::reserve_of))]
pub fn reserve(
    book: &mut [u8],
    out: &mut [u8],
    answer: &mut [u64],
    own: u64,
    peers: u64,
    with: bool,
    app: &[u8],
) -> Result<(), Refusal>
    ensures { left (number_given result) book.new out.new answer.new ≡ reserve_of book.old out.old answer.old own peers with app.now }
{
    if rds_lent::lent_well(book, out, answer) {
        reserve_in(book, out, answer, own, peers, with, app)
    } else {
        Err(Refusal::WrongSize)
    }
}

#[tactic(auto, using(rds_lent::proofs::Ranges::reserved_port), unfolding(crate::specs::Ports::release_in))]
fn release_in(book: &mut [u8], out: &mut [u8], answer: &mut [u64], own: u64) -> Result<(), Refusal>
    requires { (length book.old ≡ book_size) × (277 ≤ length out.old) × (16 ≤ length answer.old) }
    ensures { left (number_given result) book.new out.new answer.new ≡ release_in book.old out.old answer.old own }
{
    if !rds_lent::is_reserved(book, own) {
        return Err(Refusal::NoRecord);
    }
    if rds_lent::is_outstanding(book) {
        return Err(Refusal::NotAllowed);
    }
    let x = rds_lent::releasing(book, own);
    rds_book::carry(book, own as usize, 0, x);
    rds_lent::send(book, out, answer);
    Ok(())
}

// Gives a port back: stores the command and sends it.
#[tactic(auto, using(rds_lent::proofs::Ranges::lent_sizes), unfolding(crate::specs::Ports::release_of))]
pub fn release(book: &mut [u8], out: &mut [u8], answer: &mut [u64], own: u64) -> Result<(), Refusal>
    ensures { left (number_given result) book.new out.new answer.new ≡ release_of book.old out.old answer.old own }
{
    if rds_lent::lent_well(book, out, answer) {
        release_in(book, out, answer, own)
    } else {
        Err(Refusal::WrongSize)
    }
}

#[tactic(auto, unfolding(crate::specs::Ports::again_in))]
fn again_in(book: &[u8], out: &mut [u8], answer: &mut [u64]) -> Result<(), Refusal>
    requires { (length book.now ≡ book_size) × (277 ≤ length out.old) × (16 ≤ length answer.old) }
    ensures { left (number_given result) book.now out.new answer.new ≡ again_in book.now out.old answer.old }
{
    if !rds_lent::is_outstanding(book) {
        return Err(Refusal::NoRecord);
    }
    rds_lent::send(book, out, answer);
    Ok(())
}

// Sends the outstanding command again.
#[tactic(auto, using(rds_lent::proofs::Ranges::lent_sizes), unfolding(crate::specs::Ports::again_of))]
pub fn again(book: &[u8], out: &mut [u8], answer: &mut [u64]) -> Result<(), Refusal>
    ensures { left (number_given result) book.now out.new answer.new ≡ again_of book.now out.old answer.old }
{
    if rds_lent::lent_well(book, out, answer) {
        again_in(book, out, answer)
    } else {
        Err(Refusal::WrongSize)
    }
}

// Gives the outstanding command up.
#[tactic(auto, using(rds_lent::proofs::Ranges::formed_size), unfolding(crate::specs::Ports::abandon_number, crate::specs::Ports::abandon_after))]
pub fn abandon(book: &mut [u8]) -> Result<(), Refusal>
    ensures { (number_given result ≡ abandon_number book.old) × (book.new ≡ abandon_after book.old) }
{
    if !rds_book::well_formed(book) {
        return Err(Refusal::WrongSize);
    }
    if !rds_lent::is_outstanding(book) {
        return Err(Refusal::NoRecord);
    }
    rds_book::clear(book, 0);
    Ok(())
}
