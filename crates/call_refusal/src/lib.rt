// Refusals: what every call judges before it does anything.
#![tactic(auto)]

ghost use Rattle.std.specs.Prelude.{◌≡◌, ◌≤◌, length};
ghost use Rattle.base_layout.specs.Layout.{header_size};
ghost use Rattle.call_refusal.specs.Judging.{lowest, late_of, first_tests, peer_tests};

use base_numbers::Refusal;

// Number 2: the time is below the last accepted one or over the bound.
#[tactic(auto, unfolding(crate::specs::Judging::late_of))]
fn late(t: &[u8], time: u64) -> bool
    requires { header_size ≤ length t.now }
    ensures { result ≡ late_of t.now time }
{
    time < table_layout::clock_of(t) || base_layout::TIME_BOUND < time
}

// The lower of the numbers 1 and 2 that applies: every call is judged by them first.
#[tactic(auto, using(crate::proofs::Fits::header_there), unfolding(crate::specs::Judging::lowest))]
pub fn entry(t: &[u8], store: usize, output: usize, time: u64) -> Result<(), Refusal>
    ensures { result ≡ lowest (first_tests t.now store output time) }
{
    if !table_well_formed::fits(t, store, output) {
        return Err(Refusal::WrongSize);
    }
    if late(t, time) {
        return Err(Refusal::WrongTime);
    }
    Ok(())
}

// The lowest of the numbers 1 to 3 that applies, of a call that names a peer.
#[inline(never)]
#[tactic(auto, unfolding(crate::specs::Judging::lowest))]
pub fn peer_entry(
    t: &[u8],
    store: usize,
    output: usize,
    time: u64,
    peer: u64,
) -> Result<(), Refusal>
    ensures { result ≡ lowest (peer_tests t.now store output time peer) }
{
    entry(t, store, output, time)?;
    if base_layout::PEER_BOUND < peer {
        return Err(Refusal::PeerTooLarge);
    }
    Ok(())
}
