// What a frame from the peer does: its row, by the book, and what the row tells.
#![tactic(auto)]

ghost use Rattle.std.specs.Prelude.{◌≡◌, ◌≤◌, ◌<◌, length, drop};
ghost use Rattle.rds_book.specs.Book.{book_size, app_most, app_of_is, same};
ghost use Rattle.rds_turn.specs.Turn.{application_in, application_of, repeats, collides, engaged, taken, reserved, held, released, given_format, wanting, changes, answering, reserve_turn, release_turn, asking_turn, quiet, told, own_reserved, answer_turn, error_turn, unbuilt, plain_command, plain_response, command_turn, response_turn, turn_by};

use rds_body::Body;
use rds_frame::Kind;
use rds_rows::Row;

// A row, and what it tells: the Action, the Status sent or received, our port and the peer's, the format, whether a port changed, the Application ID's place in the frame, M.
#[derive(Clone, Copy)]
pub struct Turn {
    pub row: Row,
    pub action: u8,
    pub status: u16,
    pub own: u8,
    pub peer: u8,
    pub format: u8,
    pub changed: bool,
    pub start: usize,
    pub len: usize,
    pub m: u8,
}

// The frame from a place on.
#[tactic(auto, using(rds_lists::proofs::ListFacts::rest))]
fn rest_from(s: &[u8], start: usize) -> &[u8]
    ensures { result.now ≡ drop start s.now }
{
    &s[start.min(s.len())..]
}

// The Application ID that stands at a place of the frame.
#[tactic(auto, unfolding(crate::specs::Turn::application_in))]
fn application_in(s: &[u8], start: usize) -> &[u8]
    ensures { (result.now ≡ application_in s.now start) × (length result.now ≤ app_most) }
{
    let rest = rest_from(s, start);
    match rds_entries::application_length(rest) {
        Some(n) => &rest[..n],
        None => &rest[..0],
    }
}

// The Application ID of a Reserve or Release command.
#[tactic(auto, unfolding(crate::specs::Turn::application_of))]
pub fn application_of(s: &[u8], body: Body) -> &[u8]
    ensures { (result.now ≡ application_of s.now body) × (length result.now ≤ app_most) }
{
    match body {
        Body::Asking { start, .. } => application_in(s, start),
        _ => &[],
    }
}

// Whether place p keeps this Application ID.
fn keeps(book: &[u8], p: usize, app: &[u8]) -> bool
    requires { (length book.now ≡ book_size) × (p < 16) }
    ensures { result ≡ same (app_of_is book.now p) app.now }
{
    rds_book::same_octets(rds_book::app_in(book, p), app)
}

// Whether port d is reserved with this peer's port, application and format.
#[tactic(auto, unfolding(crate::specs::Turn::repeats))]
fn is_repeat(book: &[u8], app: &[u8], d: u8, s: u8, given: u8, none: bool) -> bool
    requires { (length book.now ≡ book_size) × (d < 16) }
    ensures { result ≡ repeats book.now app.now d s given none }
{
    let p = usize::from(d);
    let x = rds_book::place_at(book, p);
    !none && x.tag != 0 && x.peer == s && x.format == given && keeps(book, p, app)
}

// Whether our outstanding command is a Reserve with this peer's port and application.
#[tactic(auto, unfolding(crate::specs::Turn::collides))]
fn is_collision(book: &[u8], app: &[u8], s: u8) -> bool
    requires { length book.now ≡ book_size }
    ensures { result ≡ collides book.now app.now s }
{
    let c = rds_book::place_at(book, 0);
    c.tag != 2 && c.peer == s && keeps(book, 0, app)
}

// Whether port d is that of our outstanding command, and no collision.
#[tactic(auto, unfolding(crate::specs::Turn::engaged))]
fn is_engaged(book: &[u8], app: &[u8], d: u8, s: u8) -> bool
    requires { length book.now ≡ book_size }
    ensures { result ≡ engaged book.now app.now d s }
{
    let c = rds_book::place_at(book, 0);
    c.tag != 0 && c.own == d && !is_collision(book, app, s)
}

#[tactic(auto, unfolding(crate::specs::Turn::taken))]
fn is_taken(book: &[u8], app: &[u8], d: u8, s: u8) -> bool
    requires { (length book.now ≡ book_size) × (d < 16) }
    ensures { result ≡ taken book.now app.now d s }
{
    let x = rds_book::place_at(book, usize::from(d));
    x.tag != 0 || is_engaged(book, app, d, s)
}

// The row of a Reserve command.
#[tactic(auto, unfolding(crate::specs::Turn::reserved))]
fn reserve_row(book: &[u8], app: &[u8], d: u8, s: u8, given: u8, none: bool) -> Row
    requires { (length book.now ≡ book_size) × (d < 16) }
    ensures { result ≡ reserved book.now app.now d s given none }
{
    if d == 0 {
        return rds_rows::reserve_row(false, false, false, none);
    }
    let again = is_repeat(book, app, d, s, given, none);
    let taken = is_taken(book, app, d, s);
    rds_rows::reserve_row(again, true, taken, none)
}

#[tactic(auto, unfolding(crate::specs::Turn::held))]
fn is_held(book: &[u8], app: &[u8], d: u8) -> bool
    requires { (length book.now ≡ book_size) × (d < 16) }
    ensures { result ≡ held book.now app.now d }
{
    let p = usize::from(d);
    rds_book::place_at(book, p).tag != 0 && keeps(book, p, app)
}

// The row of a Release command.
#[tactic(auto, unfolding(crate::specs::Turn::released))]
fn release_row(book: &[u8], app: &[u8], d: u8) -> Row
    requires { (length book.now ≡ book_size) × (d < 16) }
    ensures { result ≡ released book.now app.now d }
{
    rds_rows::release_row(d != 0, d != 0 && is_held(book, app, d))
}

// The format that a Reserve command is given, 0 for none.
#[tactic(auto, unfolding(crate::specs::Turn::given_format))]
fn given_format(action: u8, offered: u8, ours: u8) -> u8
    ensures { result ≡ given_format action offered ours }
{
    if action == 5 {
        rds_rows::best(offered, ours)
    } else {
        0
    }
}

// Whether a Reserve command wants a format and is given none.
#[tactic(auto, unfolding(crate::specs::Turn::wanting))]
fn is_wanting(action: u8, given: u8) -> bool
    ensures { result ≡ wanting action given }
{
    action == 5 && given == 0
}

// Whether a row changes a port; `was`: our command's port is reserved.
fn has_changed(row: Row, was: bool) -> bool
    ensures { result ≡ changes row was }
{
    match row {
        Row::R5 | Row::R7 | Row::R10 => true,
        Row::R12 => was,
        _ => false,
    }
}

// What we answer to a command of the peer.
#[tactic(auto, unfolding(crate::specs::Turn::answering))]
fn answering(row: Row, action: u8, format: u8, d: u8, s: u8, start: usize, len: usize) -> Turn
    ensures { result ≡ answering row action format d s start len }
{
    Turn {
        row,
        action,
        status: u16::from(rds_rows::status(row)),
        own: d,
        peer: s,
        format,
        changed: has_changed(row, false),
        start,
        len,
        m: 0,
    }
}

// A Reserve command that is given this format.
#[tactic(auto, unfolding(crate::specs::Turn::reserve_turn))]
fn reserve_turn(
    book: &[u8],
    app: &[u8],
    action: u8,
    s: u8,
    d: u8,
    start: usize,
    len: usize,
    given: u8,
) -> Turn
    requires { (length book.now ≡ book_size) × (d < 16) }
    ensures { result ≡ reserve_turn book.now app.now action s d start len given }
{
    let row = reserve_row(book, app, d, s, given, is_wanting(action, given));
    let format = rds_rows::format(row, given, book[1]);
    answering(row, action, format, d, s, start, len)
}

// A Reserve or Release command.
#[tactic(auto, unfolding(crate::specs::Turn::asking_turn, crate::specs::Turn::release_turn))]
fn asking_turn(
    book: &[u8],
    app: &[u8],
    action: u8,
    s: u8,
    d: u8,
    start: usize,
    len: usize,
    offered: u8,
) -> Turn
    requires { (length book.now ≡ book_size) × (d < 16) }
    ensures { result ≡ asking_turn book.now app.now action s d start len offered }
{
    if action == 2 {
        let row = release_row(book, app, d);
        return answering(row, action, 0, d, s, start, len);
    }
    let given = given_format(action, offered, book[1]);
    reserve_turn(book, app, action, s, d, start, len, given)
}

fn quiet() -> Turn
    ensures { result ≡ quiet }
{
    Turn {
        row: Row::R15,
        action: 0,
        status: 0,
        own: 0,
        peer: 0,
        format: 0,
        changed: false,
        start: 0,
        len: 0,
        m: 0,
    }
}

// What is told of our outstanding command, which now is answered.
#[tactic(auto, unfolding(crate::specs::Turn::told))]
fn told(book: &[u8], row: Row, status: u16, format: u8, changed: bool) -> Turn
    requires { length book.now ≡ book_size }
    ensures { result ≡ told book.now row status format changed }
{
    let c = rds_book::place_at(book, 0);
    Turn {
        row,
        action: c.tag,
        status,
        own: c.own,
        peer: c.peer,
        format,
        changed,
        ..quiet()
    }
}

// Whether the port of our outstanding command is reserved.
#[tactic(auto, unfolding(crate::specs::Turn::own_reserved))]
fn own_reserved(book: &[u8]) -> bool
    requires { length book.now ≡ book_size }
    ensures { result ≡ own_reserved book.now }
{
    let c = rds_book::place_at(book, 0);
    rds_book::place_at(book, usize::from(c.own) % 16).tag != 0
}

// A response of MANAGE_PORT.
#[tactic(auto, unfolding(crate::specs::Turn::answer_turn))]
fn answer_turn(book: &[u8], action: u8, format: u8, status: u8) -> Turn
    requires { length book.now ≡ book_size }
    ensures { result ≡ answer_turn book.now action format status }
{
    let c = rds_book::place_at(book, 0);
    if c.tag == 0 || c.tag != action {
        return quiet();
    }
    let row = rds_rows::answer_row(action == 2, status);
    let changed = has_changed(row, own_reserved(book));
    told(book, row, u16::from(status), format, changed)
}

// An ERROR response.
#[tactic(auto, unfolding(crate::specs::Turn::error_turn))]
fn error_turn(book: &[u8], ads: bool) -> Turn
    requires { length book.now ≡ book_size }
    ensures { result ≡ error_turn book.now ads }
{
    if ads || rds_book::place_at(book, 0).tag == 0 {
        quiet()
    } else {
        told(book, Row::R14, 256, 0, false)
    }
}

// A command that isn't built.
#[tactic(auto, unfolding(crate::specs::Turn::unbuilt))]
fn unbuilt(action: u8, m: u8) -> Turn
    ensures { result ≡ unbuilt action m }
{
    Turn {
        row: Row::R9,
        action,
        m,
        ..quiet()
    }
}

#[tactic(auto, unfolding(crate::specs::Turn::plain_command))]
fn plain_command(m: u8) -> Turn
    ensures { result ≡ plain_command m }
{
    if m == 1 { quiet() } else { unbuilt(0, m) }
}

#[tactic(auto, unfolding(crate::specs::Turn::plain_response))]
fn plain_response(book: &[u8], ads: bool, m: u8) -> Turn
    requires { length book.now ≡ book_size }
    ensures { result ≡ plain_response book.now ads m }
{
    if m == 1 {
        error_turn(book, ads)
    } else {
        quiet()
    }
}

#[tactic(auto, unfolding(crate::specs::Turn::command_turn))]
fn command_turn(book: &[u8], app: &[u8], m: u8, body: Body) -> Turn
    requires { length book.now ≡ book_size }
    ensures { result ≡ command_turn book.now app.now m body }
{
    match body {
        Body::Asking {
            action,
            source,
            destination,
            start,
            len,
            format,
        } => asking_turn(
            book,
            app,
            action,
            source,
            destination % 16,
            start,
            len,
            format,
        ),
        Body::Query { action, .. } | Body::List { action, .. } => unbuilt(action, m),
        _ => plain_command(m),
    }
}

#[tactic(auto, unfolding(crate::specs::Turn::response_turn))]
fn response_turn(book: &[u8], ads: bool, m: u8, body: Body) -> Turn
    requires { length book.now ≡ book_size }
    ensures { result ≡ response_turn book.now ads m body }
{
    match body {
        Body::Answer {
            action,
            format,
            status,
        } => answer_turn(book, action, format, status),
        _ => plain_response(book, ads, m),
    }
}

// What a frame with this header and this body does.
#[tactic(auto, unfolding(crate::specs::Turn::turn_by))]
pub fn turn_of(book: &[u8], app: &[u8], ads: bool, kind: Kind, body: Body) -> Turn
    requires { length book.now ≡ book_size }
    ensures { result ≡ turn_by book.now app.now ads body kind }
{
    match kind {
        Kind::U { m, response: true } => response_turn(book, ads, m, body),
        Kind::U { m, .. } => command_turn(book, app, m, body),
        _ => quiet(),
    }
}
