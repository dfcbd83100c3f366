// Whether the header of a table is in range.
#![tactic(auto)]

ghost use Rattle.std.specs.Prelude.{◌≡◌, ◌≤◌, ◌<◌, length, leb, ltb};
ghost use Rattle.base_layout.specs.Layout.{cached_bound, peers};
ghost use Rattle.base_lists.specs.Seq.{every, pick};
ghost use Rattle.table_layout.specs.Table.{HasHeader, cached_of};
ghost use Rattle.table_ranges.specs.Ranges.{interval, modes_ok};
ghost use Rattle.table_header_ok.specs.Header.{settings_ok, requests_ok, interval_at, header_ok_is};

use base_octets::Number;
use table_layout::Settings;

const SPARE_SIZE: usize = base_layout::CACHED_AT - base_layout::HEADER_SPARE_AT;

#[tactic(auto, unfolding(crate::specs::Header::settings_ok))]
pub fn settings_ok(s: Settings) -> bool
    ensures { result ≡ settings_ok s }
{
    table_ranges::maximum_ok(s.rcr_max)
        && table_ranges::maximum_ok(s.aec_max)
        && table_ranges::interval_ok(s.a)
        && table_ranges::interval_ok(s.w)
}

// The waiting limit and its mode, the flag of TIDnew, and the spare octets.
#[tactic(auto, unfolding(crate::specs::Header::requests_ok))]
fn requests_ok(t: &[u8]) -> bool
    requires { HasHeader t.now }
    ensures { result ≡ requests_ok t.now }
{
    let modes = u64::from(t[base_layout::MODES_AT]);
    let limit = u64::from(u32::get(t, base_layout::LIMIT_AT));
    table_ranges::modes_ok(modes, limit)
        && t[base_layout::TIDNEW_DUE_AT] <= 1
        && table_ranges::zero_octets(t, base_layout::HEADER_SPARE_AT, SPARE_SIZE)
}

// A mark where the k-th interval is out of range.
#[tactic(auto, unfolding(crate::specs::Header::interval_at))]
fn outside(t: &[u8], k: usize) -> u32
    requires { HasHeader t.now × (k < 18) }
    ensures { result ≡ pick (interval (interval_at t.now k)) 0 1 }
{
    u32::from(!table_ranges::interval_ok(u32::get(t, base_layout::ROW_1_AT + k * 4)))
}

// Gathered without an early exit: four intervals are tested at once.
fn rows_ok(t: &[u8]) -> bool
    requires { HasHeader t.now }
    ensures { result ≡ every (λ k. interval (interval_at t.now k)) 18 }
{
    (0..18).fold(0, |marks, k| marks | outside(t, k)) == 0
}

// The largest is sought without an early exit: eight TIDs are looked at at once.
fn cached_ok(t: &[u8]) -> bool
    requires { HasHeader t.now }
    ensures { result ≡ every (λ peer. leb (cached_of t.now peer) cached_bound) peers }
{
    (0..base_layout::PEERS).fold(
        0,
        |most: u16, peer| most.max(table_layout::cached_of(t, peer)),
    ) <= base_layout::CACHED_BOUND
}

#[tactic(auto, unfolding(crate::specs::Header::header_ok_is))]
pub fn header_ok(t: &[u8]) -> bool
    requires { HasHeader t.now }
    ensures { result ≡ header_ok_is t.now }
{
    table_ranges::time_ok(table_layout::clock_of(t))
        && table_ranges::tid_ok(table_layout::gen_tid_of(t))
        && settings_ok(table_layout::settings_of(t))
        && requests_ok(t)
        && rows_ok(t)
        && cached_ok(t)
}
