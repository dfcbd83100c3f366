// Storing a frame (TS 24.250, clause 5) into the output, its parts straight from the lent octets.
#![tactic(auto)]

ghost use Rattle.std.specs.Prelude.{◌≡◌, ◌+◌, ◌≤◌, length, take};
ghost use Rattle.base_lists.specs.Seq.{bit, put};
ghost use Rattle.rds_size.specs.Size.{entries_size};
ghost use Rattle.rds_pieces.specs.Octets.{pieces_of};
ghost use Rattle.rds_encoding.specs.Encoding.{head_octets, entry_octets, entries_octets, pieces_octets, Fitting, octets_of};

use rds_entries::Entry;
use rds_frame::Head;
use rds_pieces::Pieces;
use rds_reading::Frame;

// Stores the header; the place after it.
#[tactic(auto, using(crate::proofs::Stores::two_stores, crate::proofs::Lengths::length_head, crate::proofs::Lengths::first_length), unfolding(crate::specs::Encoding::head_octets))]
fn put_head(out: &mut [u8], head: Head, from_network: bool) -> usize
    requires { 3 ≤ length out.old }
    ensures { (result ≡ length (head_octets head from_network)) × (result ≤ 3) × (out.new ≡ put out.old 0 (head_octets head from_network)) }
{
    let two = rds_pieces::kind_octets(head.kind, head.ads, from_network);
    let n = rds_pieces::kind_length(head.kind);
    let m = usize::from(head.ads);
    let ports = [rds_pieces::ports_octet(head.source, head.destination)];
    base_lists::store(out, 0, &two[..n]);
    base_lists::store(out, n, &ports[..m]);
    n + m
}

// Stores an entry from `at` on; the place after it.
#[tactic(auto, using(base_lists::proofs::StoresAndParts::length_part, crate::proofs::Stores::three_stores), unfolding(crate::specs::Encoding::entry_octets))]
fn put_entry(out: &mut [u8], at: usize, bytes: &[u8], e: Entry, formats: bool) -> usize
    requires { (e.start + e.len ≤ length bytes.now) × (at + (1 + e.len + bit formats) ≤ length out.old) }
    ensures { (result ≡ at + (1 + e.len + bit formats)) × (out.new ≡ put out.old at (entry_octets bytes.now formats e)) }
{
    let first = [rds_pieces::ports_octet(e.source, e.destination)];
    let last = [e.format % 8];
    let m = usize::from(formats);
    base_lists::store(out, at, &first);
    base_lists::copy(out, at + 1, bytes, e.start, e.len);
    base_lists::store(out, at + 1 + e.len, &last[..m]);
    at + 1 + e.len + m
}

// Stores the first `count` entries from `at` on; the place after them.
fn put_entries(
    out: &mut [u8],
    at: usize,
    bytes: &[u8],
    list: [Entry; 15],
    formats: bool,
    count: usize,
) -> usize
    requires { (count ≤ 15) × (entries_size bytes.now formats list count ≤ 1520) × (at + entries_size bytes.now formats list count ≤ length out.old) }
    ensures { (result ≡ at + entries_size bytes.now formats list count) × (out.new ≡ put out.old at (entries_octets bytes.now formats (take count list))) }
{
    let mut next = at;
    for k in 0..count {
        next = put_entry(out, next, bytes, list[k], formats);
    }
    next
}

// Stores the pieces of a body from `at` on; the place after them.
fn put_pieces(out: &mut [u8], at: usize, bytes: &[u8], p: Pieces, list: [Entry; 15]) -> usize
    requires { (at ≤ 3) × (1523 ≤ length out.old) × Fitting bytes.now list p }
    ensures { (result ≡ at + length (pieces_octets bytes.now list p)) × (out.new ≡ put out.old at (pieces_octets bytes.now list p)) }
{
    let front = p.front;
    let tail = p.tail;
    let part = at + p.fronts;
    base_lists::store(out, at, &front[..p.fronts]);
    base_lists::copy(out, part, bytes, p.start, p.len);
    let last = put_entries(out, part + p.len, bytes, list, p.formats, p.count);
    base_lists::store(out, last, &tail[..p.tails]);
    last + p.tails
}

// Stores a frame whose body fits at the start of the output; its length.
pub fn put_frame(out: &mut [u8], bytes: &[u8], f: Frame, from_network: bool) -> usize
    requires { (1523 ≤ length out.old) × Fitting bytes.now f.list (pieces_of f.body) }
    ensures { (result ≡ length (octets_of bytes.now f from_network)) × (out.new ≡ put out.old 0 (octets_of bytes.now f from_network)) }
{
    let list = f.list;
    let at = put_head(out, f.head, from_network);
    put_pieces(out, at, bytes, rds_pieces::in_pieces(f.body), list)
}
