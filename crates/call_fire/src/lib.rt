// Which record a firing by name fires, and what it is refused for.
#![tactic(auto)]

ghost use Rattle.std.specs.Prelude.{◌≡◌};
ghost use Rattle.table_finding.specs.Finding.{Within};
ghost use Rattle.call_fire.specs.Fires.{as_fire, named_place, fire_place};

use base_numbers::Refusal;

// With the named record found: number 8 or 9, or its place.
#[tactic(auto, using(crate::proofs::Placing::gives_nine, crate::proofs::Placing::is_placed, crate::proofs::Placing::gives_eight))]
fn named_place(t: &[u8], found: Option<usize>, time: u64) -> Result<usize, Refusal>
    requires { Within t.now found }
    ensures { result ≡ named_place t.now time found }
{
    let place = found.ok_or(Refusal::NoRecord)?;
    if table_finding::is_due(t, place, time) {
        Ok(place)
    } else {
        Err(Refusal::NotAllowed)
    }
}

// Firing the record of this role, peer and TID, over a store and an output of these lengths: a number, or its place.
#[tactic(auto, using(call_refusal::proofs::Going::entered))]
pub fn fire_place(
    t: &[u8],
    store: usize,
    output: usize,
    time: u64,
    role: u64,
    peer: u64,
    tid: u64,
) -> Result<usize, Refusal>
    ensures { result ≡ fire_place t.now store output (as_fire time role peer tid) }
{
    call_refusal::peer_entry(t, store, output, time, peer)?;
    named_place(t, call_primitive::named_by(t, role, peer, tid), time)
}
