// The next deadline: told, with nothing changed but the words that it is told in.
#![tactic(auto)]

ghost use Rattle.std.specs.Prelude.{◌≡◌};
ghost use Rattle.table_finding.specs.Finding.{Within};
ghost use Rattle.call_deadline.specs.Deadlines.{due_words, deadline_number, due_after};

use base_numbers::Refusal;

// The five words of the record with the earliest deadline, or of none.
#[tactic(auto, unfolding(crate::specs::Deadlines::due_words))]
fn told(t: &[u8], found: Option<usize>) -> [u64; 5]
    requires { Within t.now found }
    ensures { result ≡ due_words t.now found }
{
    match found {
        Some(i) => {
            let r = table_layout::record_at(t, i);
            let role = u64::from(r.state.role());
            [1, r.deadline, role, u64::from(r.peer), u64::from(r.tid)]
        }
        None => [0; 5],
    }
}

// Tells the earliest deadline of a live record, with its role, peer and TID; it takes no time and stores none.
#[inline(never)]
#[tactic(auto, using(crate::proofs::Within::formed_tables), unfolding(crate::specs::Deadlines::deadline_number, crate::specs::Deadlines::due_after, crate::specs::Deadlines::earliest_of))]
pub fn deadline(t: &[u8], due: &mut [u64]) -> u64
    ensures { (result ≡ deadline_number t.now due.old) × (due.new ≡ due_after t.now due.old) }
{
    if due.len() < 5 || !table_well_formed::well_formed(t) {
        return u64::from(Refusal::WrongSize);
    }
    let found = table_finding::due(t, table_layout::records(t), base_layout::DEADLINE_BOUND);
    let words = told(t, found);
    base_lists::store(due, 0, &words);
    0
}
