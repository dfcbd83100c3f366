// Numbers in their ranges, and octets that must be zero.
#![tactic(auto)]

ghost use Rattle.std.specs.Prelude.{◌≡◌, ◌+◌, ◌*◌, ◌≤◌, length, leb};
ghost use Rattle.base_layout.specs.Layout.{time_bound, maximum_bound, tid_bound};
ghost use Rattle.table_ranges.specs.Ranges.{interval, modes_ok, unknown_ok, zeros};

use base_octets::Number;

// The bound of the waiting limit, as wide as the settings' words.
const LIMIT_BOUND: u64 = base_layout::INTERVAL_BOUND as u64;

pub fn time_ok(time: u64) -> bool
    ensures { result ≡ leb time time_bound }
{
    time <= base_layout::TIME_BOUND
}

pub fn tid_ok(tid: u16) -> bool
    ensures { result ≡ leb tid tid_bound }
{
    tid <= base_layout::TID_BOUND
}

// RCR_MAX or AEC_MAX.
pub fn maximum_ok(n: u8) -> bool
    ensures { result ≡ leb n maximum_bound }
{
    n <= base_layout::MAXIMUM_BOUND
}

// A, W or one of R.
#[tactic(auto, unfolding(crate::specs::Ranges::interval))]
pub fn interval_ok(v: u32) -> bool
    ensures { result ≡ interval v }
{
    1 <= v && v <= base_layout::INTERVAL_BOUND
}

// The waiting limit goes with its mode.
#[tactic(auto, unfolding(crate::specs::Ranges::modes_ok, crate::specs::Ranges::interval))]
pub fn modes_ok(modes: u64, limit: u64) -> bool
    ensures { result ≡ modes_ok modes limit }
{
    match modes {
        0 => limit == 0,
        1 => 1 <= limit && limit <= LIMIT_BOUND,
        _ => false,
    }
}

// The identity of an unknown item, or 0.
#[tactic(auto, unfolding(crate::specs::Ranges::unknown_ok))]
pub fn unknown_ok(k: u8) -> bool
    ensures { result ≡ unknown_ok k }
{
    k == 0 || (base_layout::UNKNOWN_LEAST <= k && k <= base_layout::IDENTITY_BOUND)
}

// Whether n octets are zero, gathered without an early exit.
pub fn zero_octets(t: &[u8], at: usize, n: usize) -> bool
    requires { at + n ≤ length t.now }
    ensures { result ≡ zeros t.now at n }
{
    t[at..at + n].iter().fold(0, |bits, x| bits | *x) == 0
}

// Whether n words of eight octets are zero, gathered without an early exit: it becomes a few wide loads.
pub fn zero_words(t: &[u8], at: usize, n: usize) -> bool
    requires { at + n * 8 ≤ length t.now }
    ensures { result ≡ zeros t.now at (n * 8) }
{
    (0..n).fold(0, |bits, i| bits | u64::get(t, at + i * 8)) == 0
}
