// Finding a record. Only the octets that a test needs are read.
#![tactic(auto)]

ghost use Rattle.std.specs.Prelude.{◌≡◌};
ghost use Rattle.table_record.specs.Record.{state_number};
ghost use Rattle.table_layout.specs.Table.{HasRecord, HasRecords, record_at};
ghost use Rattle.table_finding.specs.Finding.{is_free, has_role, is_of, is_named, is_receiver, uses_tid, named_of, receiver_of, free_of, tid_in_use, is_due, Within, earlier_of, due_of};

use base_layout::{HEADER_SIZE, RECORD_SIZE};
use base_octets::Number;
use base_tids::RcvTid;
use table_record::Role;

// The number of a record's state; an octet over 11 is no state and counts as free.
#[tactic(auto, using(crate::proofs::Fields::state_number_holds, crate::proofs::Fields::no_state))]
fn state_at(t: &[u8], i: usize) -> u8
    requires { HasRecord t.now i }
    ensures { result ≡ state_number (record_at t.now i).state }
{
    let n = t[HEADER_SIZE + i * RECORD_SIZE];
    if n <= base_layout::STATE_BOUND { n } else { 0 }
}

#[tactic(auto, using(crate::proofs::Fields::peer_read))]
fn peer_at(t: &[u8], i: usize) -> u64
    requires { HasRecord t.now i }
    ensures { result ≡ (record_at t.now i).peer }
{
    u64::from(t[HEADER_SIZE + i * RECORD_SIZE + base_layout::PEER_OFFSET])
}

#[tactic(auto, using(crate::proofs::Fields::tid_read))]
fn tid_at(t: &[u8], i: usize) -> u16
    requires { HasRecord t.now i }
    ensures { result ≡ (record_at t.now i).tid }
{
    u16::get(t, HEADER_SIZE + i * RECORD_SIZE + base_layout::TID_OFFSET)
}

#[tactic(auto, using(crate::proofs::Fields::deadline_read))]
fn deadline_at(t: &[u8], i: usize) -> u64
    requires { HasRecord t.now i }
    ensures { result ≡ (record_at t.now i).deadline }
{
    u64::get(
        t,
        HEADER_SIZE + i * RECORD_SIZE + base_layout::DEADLINE_OFFSET,
    )
}

// The states of an initiator have the numbers 1 to 4, those of a responder 5 to 11.
#[tactic(auto, using(crate::proofs::Fields::initiator_numbers, crate::proofs::Fields::responder_numbers))]
fn has_role(t: &[u8], i: usize, role: Role) -> bool
    requires { HasRecord t.now i }
    ensures { result ≡ has_role role (record_at t.now i) }
{
    let n = state_at(t, i);
    match role {
        Role::Initiator => 1 <= n && n <= 4,
        Role::Responder => 5 <= n,
    }
}

// Whether a record is a live one of this role and peer.
fn is_of(t: &[u8], i: usize, role: Role, peer: u64) -> bool
    requires { HasRecord t.now i }
    ensures { result ≡ is_of role peer (record_at t.now i) }
{
    peer_at(t, i) == peer && has_role(t, i, role)
}

// The TID is looked at first, since it differs most often.
#[tactic(auto, unfolding(crate::specs::Finding::is_named))]
fn is_named(t: &[u8], i: usize, role: Role, peer: u64, tid: u64) -> bool
    requires { HasRecord t.now i }
    ensures { result ≡ is_named role peer tid (record_at t.now i) }
{
    u64::from(tid_at(t, i)) == tid && is_of(t, i, role, peer)
}

// The same of the TID that the record's peer writes towards it.
#[tactic(auto, unfolding(crate::specs::Finding::is_receiver))]
fn is_receiver(t: &[u8], i: usize, role: Role, peer: u64, tid: RcvTid) -> bool
    requires { HasRecord t.now i }
    ensures { result ≡ is_receiver role peer tid (record_at t.now i) }
{
    let own = role.rcv_tid(tid_at(t, i) % base_layout::TID_COUNT);
    own.0 == tid.0 && is_of(t, i, role, peer)
}

fn is_free(t: &[u8], i: usize) -> bool
    requires { HasRecord t.now i }
    ensures { result ≡ is_free (record_at t.now i) }
{
    state_at(t, i) == 0
}

#[tactic(auto, unfolding(crate::specs::Finding::uses_tid))]
fn uses_tid(t: &[u8], i: usize, tid: u64) -> bool
    requires { HasRecord t.now i }
    ensures { result ≡ uses_tid tid (record_at t.now i) }
{
    u64::from(tid_at(t, i)) == tid && has_role(t, i, Role::Initiator)
}

// The live record of this role, peer and TID.
pub fn named(t: &[u8], n: usize, role: Role, peer: u64, tid: u64) -> Option<usize>
    requires { HasRecords t.now n }
    ensures { result ≡ named_of t.now n role peer tid }
{
    (0..n).find(|&i| is_named(t, i, role, peer, tid))
}

// The live record of this role and peer towards which the peer writes this TID.
pub fn receiver(t: &[u8], n: usize, role: Role, peer: u64, tid: RcvTid) -> Option<usize>
    requires { HasRecords t.now n }
    ensures { result ≡ receiver_of t.now n role peer tid }
{
    (0..n).find(|&i| is_receiver(t, i, role, peer, tid))
}

// The lowest free record.
pub fn free(t: &[u8], n: usize) -> Option<usize>
    requires { HasRecords t.now n }
    ensures { result ≡ free_of t.now n }
{
    (0..n).find(|&i| is_free(t, i))
}

// Whether a live initiator record, of any peer, has this TID.
pub fn tid_in_use(t: &[u8], n: usize, tid: u64) -> bool
    requires { HasRecords t.now n }
    ensures { result ≡ tid_in_use t.now n tid }
{
    (0..n).any(|i| uses_tid(t, i, tid))
}

// Whether record i is due at this time.
#[tactic(auto, unfolding(crate::specs::Finding::is_due))]
pub fn is_due(t: &[u8], i: usize, time: u64) -> bool
    requires { HasRecord t.now i }
    ensures { result ≡ is_due time (record_at t.now i) }
{
    let d = deadline_at(t, i);
    d != 0 && d <= time && !is_free(t, i)
}

// The earlier of the record i, which is due, and the best so far.
#[tactic(auto, unfolding(crate::specs::Finding::earlier_of))]
fn earlier_of(t: &[u8], i: usize, best: Option<usize>) -> Option<usize>
    requires has_record { HasRecord t.now i }
    requires within { Within t.now best }
    ensures { result ≡ earlier_of t.now i best }
{
    match best {
        Some(j) if deadline_at(t, j) <= deadline_at(t, i) => best,
        _ => Some(i),
    }
}

// The due record with the earliest deadline, the lowest place on ties.
pub fn due(t: &[u8], n: usize, time: u64) -> Option<usize>
    requires { HasRecords t.now n }
    ensures { result ≡ due_of t.now n time }
{
    let mut best = None;
    for i in 0..n {
        if is_due(t, i, time) {
            best = earlier_of(t, i, best);
        }
    }
    best
}
