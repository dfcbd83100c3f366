// The octets of a frame to be written (TS 24.250, clause 5): those of the header, and the pieces of a body. Spare bits are 0.
#![tactic(auto)]

ghost use Rattle.std.specs.Prelude.{◌≡◌, ◌≤◌};
ghost use Rattle.rds_pieces.specs.Octets.{ports_octet, kind_octets, kind_length, fixed_of, bitmap_octets, asking_pieces, answer_pieces, query_pieces, list_pieces, pieces_of};

use rds_body::Body;
use rds_frame::Kind;

// A body in order: octets of its own, a part of the lent octets, entries, octets of its own.
#[derive(Clone, Copy)]
pub struct Pieces {
    pub front: [u8; 3],
    pub fronts: usize,
    pub start: usize,
    pub len: usize,
    pub count: usize,
    pub formats: bool,
    pub tail: [u8; 2],
    pub tails: usize,
}

pub fn ports_octet(source: u8, destination: u8) -> u8
    ensures { result ≡ ports_octet source destination }
{
    source % 16 * 16 + destination % 16
}

// Octets 1 and 2 of a header; a UI frame has the first alone.
#[tactic(auto, unfolding(crate::specs::Octets::kind_octets))]
pub fn kind_octets(kind: Kind, ads: bool, from_network: bool) -> [u8; 2]
    ensures { result ≡ kind_octets kind ads from_network }
{
    let e = u8::from(ads) * 8;
    match kind {
        Kind::I { a, ns, nr, r } => [u8::from(a) * 32 + e + ns % 8, nr % 8 * 32 + r % 8 * 4 + 3],
        Kind::S { a, nr, r } => [96 + e + u8::from(a) * 4, nr % 8 * 32 + r % 8 * 4 + 3],
        Kind::Ui { nu } => [64 + e + nu % 8, 0],
        Kind::U { m, response } => {
            let cr = rds_frame::says_response(response, from_network);
            [112 + e + u8::from(cr) * 4, m % 16]
        }
    }
}

// How many of them there are.
#[tactic(auto, unfolding(crate::specs::Octets::kind_length))]
pub fn kind_length(kind: Kind) -> usize
    ensures { (result ≡ kind_length kind) × (result ≤ 2) }
{
    match kind {
        Kind::I { .. } | Kind::S { .. } | Kind::U { .. } => 2,
        Kind::Ui { .. } => 1,
    }
}

// Octets of its own, and nothing else.
#[tactic(auto, unfolding(crate::specs::Octets::fixed_of))]
fn fixed(front: [u8; 3], fronts: usize) -> Pieces
    ensures { result ≡ fixed_of front fronts }
{
    Pieces {
        front,
        fronts,
        start: 0,
        len: 0,
        count: 0,
        formats: false,
        tail: [0; 2],
        tails: 0,
    }
}

// The two octets of a bitmap of ports.
fn bitmap_octets(ports: u16) -> [u8; 2]
    ensures { result ≡ bitmap_octets ports }
{
    [(ports % 256) as u8, (ports / 256 % 256) as u8]
}

// The command Reserve or Release.
#[tactic(auto, unfolding(crate::specs::Octets::asking_pieces))]
fn asking(action: u8, source: u8, destination: u8, start: usize, len: usize, format: u8) -> Pieces
    ensures { result ≡ asking_pieces action source destination start len format }
{
    let ports = ports_octet(source, destination);
    Pieces {
        front: [action % 16, ports, 0],
        fronts: 2,
        start,
        len,
        count: 0,
        formats: false,
        tail: [format % 8, 0],
        tails: usize::from(u8::from(action == 5)),
    }
}

// The response Reserve or Release.
#[tactic(auto, unfolding(crate::specs::Octets::answer_pieces))]
fn answer(action: u8, format: u8, status: u8) -> Pieces
    ensures { result ≡ answer_pieces action format status }
{
    if action == 5 {
        fixed([action % 16, format % 8, status % 4], 3)
    } else {
        fixed([action % 16, status % 4, 0], 2)
    }
}

// The command Query.
#[tactic(auto, unfolding(crate::specs::Octets::query_pieces))]
fn query(action: u8, ports: Option<u16>) -> Pieces
    ensures { result ≡ query_pieces action ports }
{
    let [low, high] = bitmap_octets(ports.unwrap_or(0));
    fixed(
        [action % 16, low, high],
        1 + 2 * usize::from(ports.is_some()),
    )
}

// A list: its octet 1, its entries, perhaps a bitmap of ports.
#[tactic(auto, unfolding(crate::specs::Octets::list_pieces))]
fn listed(action: u8, ports: Option<u16>, count: u8) -> Pieces
    ensures { result ≡ list_pieces action ports count }
{
    let tail = bitmap_octets(ports.unwrap_or(0));
    Pieces {
        front: [count % 16 * 16 + action % 16, 0, 0],
        fronts: 1,
        start: 0,
        len: 0,
        count: usize::from(count % 16),
        formats: 5 < action,
        tail,
        tails: 2 * usize::from(ports.is_some()),
    }
}

// The pieces of a body.
#[tactic(auto, unfolding(crate::specs::Octets::pieces_of))]
pub fn in_pieces(body: Body) -> Pieces
    ensures { result ≡ pieces_of body }
{
    match body {
        Body::Empty => fixed([0; 3], 0),
        Body::Information { start, len } => Pieces {
            front: [0; 3],
            fronts: 0,
            start,
            len,
            count: 0,
            formats: false,
            tail: [0; 2],
            tails: 0,
        },
        Body::Asking {
            action,
            source,
            destination,
            start,
            len,
            format,
        } => asking(action, source, destination, start, len, format),
        Body::Answer {
            action,
            format,
            status,
        } => answer(action, format, status),
        Body::Query { action, ports } => query(action, ports),
        Body::List {
            action,
            ports,
            count,
        } => listed(action, ports, count),
    }
}
