// The TID test, the next GenTID, TIDnew, and the interval of a class and RCR.
#![tactic(auto)]

ghost use Rattle.std.specs.Prelude.{◌≡◌, ◌<◌};
ghost use Rattle.table_tids.specs.Tids.{distance, test_of, next_tid, carries_tidnew, due_after, row_number, interval_of};

use base_layout::TID_COUNT;
use table_record::Rcr;

// 01, "TIDs": what the responder's test says of an Invoke's TID.
#[derive(Clone, Copy)]
pub enum Test {
    Valid,
    Verified,
}

// (TID - LastTID) modulo 32,768.
#[tactic(auto, using(crate::proofs::Distance::wraps))]
fn distance_of(tid: u16, last: u16) -> u16
    ensures { result ≡ distance tid last }
{
    tid.wrapping_sub(last) % TID_COUNT
}

// The test of a TID against what is cached for its peer: 0 is none, else LastTID and 1.
#[tactic(auto, unfolding(crate::specs::Tids::test_of))]
pub fn tid_test(cached: u16, tid: u16) -> Test
    ensures { result ≡ test_of cached tid }
{
    if cached == 0 {
        return Test::Verified;
    }
    let d = distance_of(tid, cached - 1);
    if 1 <= d && d <= 16383 {
        Test::Valid
    } else {
        Test::Verified
    }
}

// The GenTID after this one.
pub fn next_tid(tid: u16) -> u16
    ensures { result ≡ next_tid tid }
{
    (tid % TID_COUNT + 1) % TID_COUNT
}

// Whether a request's Invoke carries TIDnew, where it is due or not.
#[tactic(auto, unfolding(crate::specs::Tids::carries_tidnew))]
pub fn carries_tidnew(class: u8, due: bool) -> bool
    ensures { result ≡ carries_tidnew class due }
{
    class != 0 && due
}

// Whether TIDnew is due after a request that leaves this GenTID.
#[tactic(auto, unfolding(crate::specs::Tids::due_after))]
pub fn due_after(class: u8, due: bool, next: u16) -> bool
    ensures { result ≡ due_after class due next }
{
    next == 0 || (class == 0 && due)
}

// Which of the two rows is that of a class.
fn row_number(class: u8) -> usize
    ensures { (result ≡ row_number class) × (result < 2) }
{
    if class == 1 { 0 } else { 1 }
}

// R[RCR] of a class.
#[tactic(auto, unfolding(crate::specs::Tids::interval_of))]
pub fn interval(rows: [[u32; 9]; 2], class: u8, rcr: Rcr) -> u32
    ensures { result ≡ interval_of rows class rcr }
{
    rows[row_number(class)][usize::from(rcr.0 % 9)]
}
