// Reading a frame of the Reliable Data Service (TS 24.250, clause 5).
#![tactic(auto)]

ghost use Rattle.std.specs.Prelude.{◌≡◌, ◌-◌, ◌≤◌, length, drop};
ghost use Rattle.rds_reading.specs.Read.{empty_of, items_of, manage_of, u_body, body_by, body_after, frame_of};

use rds_body::{Body, Managed};
use rds_entries::Entry;
use rds_frame::{Head, Kind};

// A frame: its header, its body, and the entries of a list.
#[derive(Clone, Copy)]
pub struct Frame {
    pub head: Head,
    pub body: Body,
    pub list: [Entry; 15],
}

// No information after the place `at` of n octets.
#[tactic(auto, unfolding(crate::specs::Read::empty_of))]
fn empty(n: usize, at: usize) -> Option<Body>
    ensures { result ≡ empty_of n at }
{
    (n == at).then_some(Body::Empty)
}

// The information from `at` on, handed back as a part of the frame.
#[tactic(auto, using(rds_lists::proofs::ListFacts::rest))]
pub fn information(s: &[u8], at: usize) -> &[u8]
    requires { at ≤ length s.now }
    ensures { result.now ≡ drop at s.now }
{
    &s[at..]
}

// The length of the information from `at` on; 0 where the frame ends before.
pub fn information_length(s: &[u8], at: usize) -> usize
    ensures { result ≡ length s.now - at }
{
    s.len().saturating_sub(at)
}

// The items of SET_PARAMETERS from `at` on.
#[tactic(auto, unfolding(crate::specs::Read::items_of))]
fn items(s: &[u8], at: usize) -> Option<Body>
    requires { at ≤ length s.now }
    ensures { result ≡ items_of s.now at }
{
    let len = s.len() - at;
    rds_parameters::all_items(information(s, at), len).then_some(Body::Information {
        start: at,
        len,
    })
}

// The body of MANAGE_PORT from `at` on, whose header has no ports.
#[tactic(auto, unfolding(crate::specs::Read::manage_of))]
fn manage(s: &[u8], at: usize, ads: bool, response: bool) -> Option<Managed>
    requires { (at ≤ length s.now) × (length s.now ≤ 1523) }
    ensures { result ≡ manage_of s.now at ads response }
{
    if ads {
        None
    } else {
        rds_body::manage(information(s, at), at, response)
    }
}

// The body of a U frame from `at` on.
#[tactic(auto, unfolding(crate::specs::Read::u_body))]
fn u_body(s: &[u8], at: usize, ads: bool, m: u8, response: bool) -> Option<Managed>
    requires { (at ≤ length s.now) × (length s.now ≤ 1523) }
    ensures { result ≡ u_body s.now at ads m response }
{
    let len = s.len() - at;
    match m {
        1 | 4 => Some(rds_body::no_list(empty(s.len(), at)?)),
        10 => manage(s, at, ads, response),
        11 => Some(rds_body::no_list(items(s, at)?)),
        _ => Some(rds_body::no_list(Body::Information { start: at, len })),
    }
}

// The body that follows a header.
#[tactic(auto, unfolding(crate::specs::Read::body_by))]
fn body_of(s: &[u8], at: usize, ads: bool, kind: Kind) -> Option<Managed>
    requires { (at ≤ length s.now) × (length s.now ≤ 1523) }
    ensures { result ≡ body_by s.now at ads kind }
{
    let len = s.len() - at;
    match kind {
        Kind::I { .. } | Kind::Ui { .. } => {
            Some(rds_body::no_list(Body::Information { start: at, len }))
        }
        Kind::S { .. } => Some(rds_body::no_list(empty(s.len(), at)?)),
        Kind::U { m, response } => u_body(s, at, ads, m, response),
    }
}

// The body that follows a header, unless it is longer than N201.
#[tactic(auto, unfolding(crate::specs::Read::body_after))]
fn body_after(s: &[u8], head: Head) -> Option<Managed>
    requires { (head.end ≤ length s.now) × (head.end ≤ 3) }
    ensures { result ≡ body_after s.now head }
{
    if s.len() - head.end <= 1520 {
        body_of(s, head.end, head.ads, head.kind)
    } else {
        None
    }
}

// The frame that s holds, sent by the network or by the UE; none where it is malformed.
#[tactic(auto, using(rds_frame::proofs::Inside::head_inside), unfolding(crate::specs::Read::frame_of))]
pub fn read(s: &[u8], from_network: bool) -> Option<Frame>
    ensures { result ≡ frame_of s.now from_network }
{
    let head = rds_frame::head_of(s, from_network)?;
    let managed = body_after(s, head)?;
    let list = managed.list;
    Some(Frame {
        head,
        body: managed.body,
        list,
    })
}
