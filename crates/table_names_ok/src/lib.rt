// Whether no two live records share role, peer and TID.
#![tactic(auto)]

ghost use Rattle.std.specs.Prelude.{◌≡◌, ◌≤◌};
ghost use Rattle.base_layout.specs.Layout.{records_bound};
ghost use Rattle.table_layout.specs.Table.{HasRecords};
ghost use Rattle.table_names_ok.specs.Names.{Keyed, new_key, half_ok, names_ok};

use table_record::{Record, Role};

const HALF: usize = base_layout::RECORDS_BOUND / 2;

// Role, peer and TID of a live record as one number, and 0 for a free one.
#[tactic(auto, using(crate::proofs::Keys::key_free, crate::proofs::Keys::key_live))]
pub fn key_of(r: Record) -> u32
    ensures { Keyed r result }
{
    if u8::from(r.state) == 0 {
        return 0;
    }
    let role = u32::from(r.state.role() == Role::Responder);
    1 + role + 256 * u32::from(r.peer) + 65536 * u32::from(r.tid)
}

// Gathered over all places without an early exit: four keys are tested at once.
pub fn new_key(keys: &[u32; HALF], k: u32) -> bool
    ensures { result ≡ new_key keys.now k }
{
    if k == 0 {
        return true;
    }
    let marks = keys
        .iter()
        .fold(0, |marks, key| marks | u32::from(*key == k));
    marks == 0
}

// The keys passed of the half that begins at `from` lie at their places in it, and the others are 0.
fn half_ok(t: &[u8], from: usize, n: usize) -> bool
    requires { HasRecords t.now n }
    ensures { result ≡ half_ok t.now from n }
{
    let mut keys = [0u32; HALF];
    for i in from..n {
        let k = key_of(table_layout::record_at(t, i));
        if !new_key(&keys, k) {
            return false;
        }
        if i - from < HALF {
            keys[i - from] = k;
        }
    }
    true
}

// In two halves, so that less is kept on the stack.
pub fn names_ok(t: &[u8], n: usize) -> bool
    requires { HasRecords t.now n × (n ≤ records_bound) }
    ensures { result ≡ names_ok t.now n }
{
    half_ok(t, 0, n) && half_ok(t, HALF, n)
}
