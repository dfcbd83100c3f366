// The octets of the port book: 16 places of 276 octets after the side and the formats, and whether they are well formed.
#![tactic(auto)]

ghost use Rattle.std.specs.Prelude.{◌≡◌, ◌+◌, ◌≤◌, ◌<◌, length};
ghost use Rattle.base_lists.specs.Seq.{every};
ghost use Rattle.rds_book.specs.Book.{book_size, app_most, place_of, app_length, app_of_is, zeros, port_fits, is_action, command_fits, fits, place_ok, well_formed, keep, cleared, same};

pub const BOOK_SIZE: usize = 2 + 16 * PLACE_SIZE;

const PLACE_SIZE: usize = 4 + APP_MOST;

const APP_MOST: usize = 272;

// The fields of a place. Port p is place p: the tag is by whom it is reserved. The command is place 0: the tag is its Action.
#[derive(Clone, Copy)]
pub struct Place {
    pub tag: u8,
    pub own: u8,
    pub peer: u8,
    pub format: u8,
}

#[tactic(auto, unfolding(crate::specs::Book::place_of))]
pub fn place_at(book: &[u8], p: usize) -> Place
    requires { (length book.now ≡ book_size) × (p < 16) }
    ensures { result ≡ place_of book.now p }
{
    let at = 2 + p * PLACE_SIZE;
    Place {
        tag: book[at],
        own: book[at + 1],
        peer: book[at + 2],
        format: book[at + 3],
    }
}

// The length of the Application ID in place p.
pub fn app_length(book: &[u8], p: usize) -> usize
    requires { (length book.now ≡ book_size) × (p < 16) }
    ensures { (result ≡ app_length book.now p) × (result ≤ app_most) }
{
    17 + usize::from(book[2 + p * PLACE_SIZE + 20])
}

// The Application ID in place p, handed back as a part of the book.
#[tactic(auto, unfolding(crate::specs::Book::app_of_is))]
pub fn app_in(book: &[u8], p: usize) -> &[u8]
    requires { (length book.now ≡ book_size) × (p < 16) }
    ensures { result.now ≡ app_of_is book.now p }
{
    let at = 2 + p * PLACE_SIZE + 4;
    let n = app_length(book, p);
    &book[at..at + n]
}

// Whether n octets from `at` on are zero, gathered without an early exit.
fn zero_from(book: &[u8], at: usize, n: usize) -> bool
    requires { at + n ≤ length book.now }
    ensures { result ≡ zeros book.now at n }
{
    let mut bits = 0;
    for &x in &book[at..at + n] {
        bits |= x;
    }
    bits == 0
}

#[tactic(auto, unfolding(crate::specs::Book::port_fits))]
fn port_fits(x: Place) -> bool
    ensures { result ≡ port_fits x }
{
    x.tag <= 2 && x.own == 0 && x.peer <= 15 && x.format <= 7
}

#[tactic(auto, unfolding(crate::specs::Book::is_action))]
fn is_action(action: u8) -> bool
    ensures { result ≡ is_action action }
{
    matches!(action, 1 | 2 | 5)
}

#[tactic(auto, unfolding(crate::specs::Book::command_fits))]
fn command_fits(x: Place) -> bool
    ensures { result ≡ command_fits x }
{
    is_action(x.tag) && 1 <= x.own && x.own <= 15 && x.peer <= 15 && x.format == 0
}

#[tactic(auto, unfolding(crate::specs::Book::fits))]
fn place_fits(p: usize, x: Place) -> bool
    ensures { result ≡ fits p x }
{
    if p == 0 {
        command_fits(x)
    } else {
        port_fits(x)
    }
}

#[tactic(auto, unfolding(crate::specs::Book::place_ok, crate::specs::Book::app_fits))]
fn place_ok(book: &[u8], p: usize) -> bool
    requires { (length book.now ≡ book_size) × (p < 16) }
    ensures { result ≡ place_ok book.now p }
{
    let at = 2 + p * PLACE_SIZE;
    let x = place_at(book, p);
    if x.tag == 0 {
        return zero_from(book, at, PLACE_SIZE);
    }
    let n = app_length(book, p);
    place_fits(p, x) && zero_from(book, at + 4 + n, APP_MOST - n)
}

fn places_ok(book: &[u8]) -> bool
    requires { length book.now ≡ book_size }
    ensures { result ≡ every (place_ok book.now) 16 }
{
    for p in 0..16 {
        if !place_ok(book, p) {
            return false;
        }
    }
    true
}

// Whether the book has its size and keeps nothing out of range.
#[tactic(auto, unfolding(crate::specs::Book::well_formed))]
pub fn well_formed(book: &[u8]) -> bool
    ensures { result ≡ well_formed book.now }
{
    book.len() == BOOK_SIZE && book[0] <= 1 && book[1] <= 7 && places_ok(book)
}

// Keeps these fields and this Application ID in place p.
pub fn keep(book: &mut [u8], p: usize, x: Place, app: &[u8])
    requires { (length book.old ≡ book_size) × (p < 16) × (length app.now ≤ app_most) }
    ensures { book.new ≡ keep book.old p x app.now }
{
    let at = 2 + p * PLACE_SIZE;
    let zero = [0; APP_MOST];
    let n = app.len();
    base_lists::store(book, at, &[x.tag, x.own, x.peer, x.format]);
    base_lists::store(book, at + 4, app);
    base_lists::store(book, at + 4 + n, &zero[n..]);
}

// Makes place p free.
#[tactic(auto, unfolding(crate::specs::Book::place_octets, crate::specs::Book::keep, crate::specs::Book::cleared))]
pub fn clear(book: &mut [u8], p: usize)
    requires { (length book.old ≡ book_size) × (p < 16) }
    ensures { book.new ≡ cleared book.old p }
{
    base_lists::store(book, 2 + p * PLACE_SIZE, &[0; PLACE_SIZE]);
}

// Keeps these fields in place `to`, with the Application ID of place `from`.
pub fn carry(book: &mut [u8], from: usize, to: usize, x: Place)
    requires { (length book.old ≡ book_size) × (from < 16) × (to < 16) }
    ensures { book.new ≡ keep book.old to x (app_of_is book.old from) }
{
    let mut app = [0u8; APP_MOST];
    let n = app_length(book, from);
    base_lists::copy(&mut app, 0, book, 2 + from * PLACE_SIZE + 4, n);
    keep(book, to, x, &app[..n]);
}

// Whether two slices are the same octets.
pub fn same_octets(s: &[u8], t: &[u8]) -> bool
    ensures { result ≡ same s.now t.now }
{
    s == t
}
