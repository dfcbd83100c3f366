// The words that the C interface has for a frame: 100 for all of it, 8 for what is taken of it.
#![tactic(auto)]

ghost use Rattle.std.specs.Prelude.{◌≡◌, ◌≤◌, length};
ghost use Rattle.base_lists.specs.Seq.{put};
ghost use Rattle.rds_words.specs.Words.{head_words, body_words, entry_words, entries_words, list_words, words_of, part_words};

use rds_body::Body;
use rds_entries::Entry;
use rds_frame::{Head, Kind};
use rds_reading::Frame;

// Words 0 to 10: the kind, ADS and the ports, A, N(S), N(R), R, N(U), M, and 1 for a response.
#[tactic(auto, unfolding(crate::specs::Words::head_words, crate::specs::Words::kind_words))]
fn head_words(head: Head) -> [u64; 11]
    ensures { result ≡ head_words head }
{
    let mut words = [0; 11];
    words[1] = u64::from(head.ads);
    words[2] = u64::from(head.source);
    words[3] = u64::from(head.destination);
    match head.kind {
        Kind::I { a, ns, nr, r } => {
            words[0] = 1;
            words[4] = u64::from(a);
            words[5] = u64::from(ns);
            words[6] = u64::from(nr);
            words[7] = u64::from(r);
        }
        Kind::S { a, nr, r } => {
            words[0] = 2;
            words[4] = u64::from(a);
            words[6] = u64::from(nr);
            words[7] = u64::from(r);
        }
        Kind::Ui { nu } => {
            words[0] = 3;
            words[8] = u64::from(nu);
        }
        Kind::U { m, response } => {
            words[0] = 4;
            words[9] = u64::from(m);
            words[10] = u64::from(response);
        }
    }
    words
}

// Words 11 to 23: start and length of the information, Action, Status, the ports of the body, start and length of the Application ID, format, bitmap, number of entries, zero.
#[tactic(auto, unfolding(crate::specs::Words::body_words))]
fn body_words(body: Body) -> [u64; 13]
    ensures { result ≡ body_words body }
{
    let mut words = [0; 13];
    match body {
        Body::Empty => {}
        Body::Information { start, len } => {
            words[0] = start as u64;
            words[1] = len as u64;
        }
        Body::Asking {
            action,
            source,
            destination,
            start,
            len,
            format,
        } => {
            words[2] = u64::from(action);
            words[4] = u64::from(source);
            words[5] = u64::from(destination);
            words[6] = start as u64;
            words[7] = len as u64;
            words[8] = u64::from(format);
        }
        Body::Answer {
            action,
            format,
            status,
        } => {
            words[2] = u64::from(action);
            words[3] = u64::from(status);
            words[8] = u64::from(format);
        }
        Body::Query { action, ports } => {
            words[2] = u64::from(action);
            words[9] = u64::from(ports.is_some());
            words[10] = u64::from(ports.unwrap_or(0));
        }
        Body::List {
            action,
            ports,
            count,
        } => {
            words[2] = u64::from(action);
            words[9] = u64::from(ports.is_some());
            words[10] = u64::from(ports.unwrap_or(0));
            words[11] = u64::from(count);
        }
    }
    words
}

#[tactic(auto, unfolding(crate::specs::Words::entry_words))]
fn entry_words(e: Entry) -> [u64; 5]
    ensures { result ≡ entry_words e }
{
    [
        u64::from(e.source),
        u64::from(e.destination),
        e.start as u64,
        e.len as u64,
        u64::from(e.format),
    ]
}

// Stores the words of the entries, five for each, from word 24 on.
fn store_entries(fields: &mut [u64], list: [Entry; 15])
    requires { 100 ≤ length fields.old }
    ensures { fields.new ≡ put fields.old 24 (entries_words list) }
{
    for (k, &e) in list.iter().enumerate() {
        base_lists::store(fields, 24 + 5 * k, &entry_words(e));
    }
}

// Stores words 24 to 99: those of the entries, and zero.
fn store_list(fields: &mut [u64], list: [Entry; 15])
    requires { 100 ≤ length fields.old }
    ensures { fields.new ≡ put fields.old 24 (list_words list) }
{
    store_entries(fields, list);
    base_lists::store(fields, 99, &[0]);
}

// Stores the words of a frame.
pub fn store_fields(fields: &mut [u64], f: Frame)
    requires { 100 ≤ length fields.old }
    ensures { fields.new ≡ put fields.old 0 (words_of f) }
{
    let list = f.list;
    base_lists::store(fields, 0, &head_words(f.head));
    base_lists::store(fields, 11, &body_words(f.body));
    store_list(fields, list);
}

// What is taken of a sound frame whose information has `len` octets: kind, start and length of a datagram, ADS, ports, number, zero.
#[tactic(auto, unfolding(crate::specs::Words::part_words, crate::specs::Words::part_by))]
pub fn part_words(head: Head, len: usize) -> [u64; 8]
    ensures { result ≡ part_words head len }
{
    let ads = u64::from(head.ads);
    let from = u64::from(head.source);
    let to = u64::from(head.destination);
    let start = head.end as u64;
    let len = len as u64;
    match head.kind {
        Kind::I { ns, .. } => [1, start, len, ads, from, to, u64::from(ns), 0],
        Kind::S { .. } => [2, 0, 0, ads, from, to, 0, 0],
        Kind::Ui { nu } => [3, start, len, ads, from, to, u64::from(nu), 0],
        Kind::U { .. } => [4, 0, 0, ads, from, to, 0, 0],
    }
}
