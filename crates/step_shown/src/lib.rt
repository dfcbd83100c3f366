// What the user is shown, and its data as a part of one of two lent slices.
#![tactic(auto)]

ghost use Rattle.std.specs.Prelude.{◌≡◌};
ghost use Rattle.table_record.specs.Record.{role_number};
ghost use Rattle.step_shown.specs.Shows.{invoke_place, confirm_place, shown_of, place_of};
ghost use Rattle.step_shown.specs.Words.{front_words, own_words, source_number, shown_words};
ghost use Rattle.step_shown.specs.Parts.{fitting_part, data_of};

use row_columns::Indication;
use table_record::Role;

#[derive(Clone, Copy)]
pub enum Source {
    Datagram,
    Store,
}

// A part of the datagram or of the store.
#[derive(Clone, Copy)]
pub struct Place {
    pub source: Source,
    pub start: usize,
    pub len: usize,
}

// An abort has no data and a result no reason, so that neither can be shown as the other.
#[derive(Clone, Copy)]
pub enum Shown {
    Nothing,
    Invoke {
        peer: u8,
        tid: u16,
        class: u8,
        up: bool,
        place: Place,
    },
    Confirm {
        role: Role,
        peer: u8,
        tid: u16,
        place: Place,
    },
    Result {
        peer: u8,
        tid: u16,
        place: Place,
    },
    Abort {
        role: Role,
        peer: u8,
        tid: u16,
        abort_type: u8,
        reason: u8,
    },
}

// What an indication concerns: `info` the Ack's first Info item, `user` the PDU's user data, `cell` the stored message.
#[derive(Clone, Copy)]
pub struct Context {
    pub role: Role,
    pub peer: u8,
    pub tid: u16,
    pub class: u8,
    pub up: bool,
    pub info: Place,
    pub user: Place,
    pub cell: Place,
}

// An abort has no data, nor has a confirmation without an Ack.
const NO_DATA: Place = Place {
    source: Source::Datagram,
    start: 0,
    len: 0,
};

#[tactic(auto, unfolding(crate::specs::Shows::invoke_place))]
fn invoke_place(verified: bool, c: Context) -> Place
    ensures { result ≡ invoke_place verified c }
{
    if verified { c.cell } else { c.user }
}

#[tactic(auto, unfolding(crate::specs::Shows::confirm_place))]
fn confirm_place(acked: bool, c: Context) -> Place
    ensures { result ≡ confirm_place acked c }
{
    if acked { c.info } else { NO_DATA }
}

// What the user is shown for an indication.
#[tactic(auto, unfolding(crate::specs::Shows::shown_of))]
pub fn shown_of(i: Indication, c: Context) -> Shown
    ensures { result ≡ shown_of i c }
{
    match i {
        Indication::Nothing => Shown::Nothing,
        Indication::Invoke(verified) => Shown::Invoke {
            peer: c.peer,
            tid: c.tid,
            class: c.class,
            up: c.up,
            place: invoke_place(verified, c),
        },
        Indication::Confirm(acked) => Shown::Confirm {
            role: c.role,
            peer: c.peer,
            tid: c.tid,
            place: confirm_place(acked, c),
        },
        Indication::Result => Shown::Result {
            peer: c.peer,
            tid: c.tid,
            place: c.user,
        },
        Indication::Abort(abort_type, reason) => Shown::Abort {
            role: c.role,
            peer: c.peer,
            tid: c.tid,
            abort_type,
            reason,
        },
    }
}

// The place of the data shown.
#[tactic(auto, unfolding(crate::specs::Shows::place_of))]
pub fn place_of(s: Shown) -> Place
    ensures { result ≡ place_of s }
{
    match s {
        Shown::Invoke { place, .. } | Shown::Confirm { place, .. } | Shown::Result { place, .. } =>
            place,
        Shown::Nothing | Shown::Abort { .. } => NO_DATA,
    }
}

pub fn role_number(role: Role) -> u64
    ensures { result ≡ role_number role }
{
    u64::from(role)
}

fn source_number(place: Place) -> u64
    ensures { result ≡ source_number place.source }
{
    match place.source {
        Source::Datagram => 0,
        Source::Store => 1,
    }
}

// Kind, role, peer, TID.
#[tactic(auto, unfolding(crate::specs::Words::front_words))]
fn front_words(s: Shown) -> [u64; 4]
    ensures { result ≡ front_words s }
{
    match s {
        Shown::Nothing => [0; 4],
        Shown::Invoke { peer, tid, .. } => [1, 1, u64::from(peer), u64::from(tid)],
        Shown::Confirm {
            role,
            peer,
            tid,
            ..
        } => [2, u64::from(role), u64::from(peer), u64::from(tid)],
        Shown::Result { peer, tid, .. } => [3, 0, u64::from(peer), u64::from(tid)],
        Shown::Abort {
            role,
            peer,
            tid,
            ..
        } => [4, u64::from(role), u64::from(peer), u64::from(tid)],
    }
}

// Class, U/P, abort type, reason.
#[tactic(auto, unfolding(crate::specs::Words::own_words))]
fn own_words(s: Shown) -> [u64; 4]
    ensures { result ≡ own_words s }
{
    match s {
        Shown::Invoke { class, up, .. } => [u64::from(class), u64::from(up), 0, 0],
        Shown::Abort {
            abort_type,
            reason,
            ..
        } => [0, 0, u64::from(abort_type), u64::from(reason)],
        _ => [0; 4],
    }
}

// The C interface's words of an indication.
pub fn words_of(s: Shown) -> [u64; 12]
    ensures { result ≡ shown_words s }
{
    let front = front_words(s);
    let own = own_words(s);
    let place = place_of(s);
    let source = source_number(place);
    [
        front[0],
        front[1],
        front[2],
        front[3],
        own[0],
        own[1],
        own[2],
        own[3],
        source,
        place.start as u64,
        place.len as u64,
        0,
    ]
}

#[tactic(auto, unfolding(crate::specs::Parts::fitting_part))]
fn fitting_part(s: &[u8], start: usize, len: usize) -> &[u8]
    ensures { result.now ≡ fitting_part s.now start len }
{
    if start <= s.len() && len <= s.len() - start {
        &s[start..start + len]
    } else {
        &[]
    }
}

// The part that a place names.
#[tactic(auto, unfolding(crate::specs::Parts::data_of))]
pub fn data_of<'a>(datagram: &'a [u8], store: &'a [u8], place: Place) -> &'a [u8]
    ensures { result.now ≡ data_of datagram.now store.now place }
{
    match place.source {
        Source::Datagram => fitting_part(datagram, place.start, place.len),
        Source::Store => fitting_part(store, place.start, place.len),
    }
}
