// The items of SET_PARAMETERS (TS 24.250, 5.4.2.5): Type, Length, then Length octets, to the end.
#![tactic(auto)]

ghost use Rattle.std.specs.Prelude.{◌≡◌, ◌≤◌, length};
ghost use Rattle.rds_lists.specs.Sizes.{nonzero};
ghost use Rattle.rds_parameters.specs.Parameters.{item_length, items_from};

// The octets of the item that s begins with; none where it is cut short, or is an RDS_Version of another length.
#[tactic(auto, unfolding(crate::specs::Parameters::item_length))]
fn item_length(s: &[u8]) -> Option<usize>
    ensures found { result ≡ nonzero (item_length s.now) }
    ensures inside { item_length s.now ≤ length s.now }
{
    let n = 2 + usize::from(*s.get(1)?);
    let whole = n <= s.len() && (s[0] != 0 || n == 3);
    if whole { Some(n) } else { None }
}

// Whether s is items to its end, of which at most `left` are still to come.
#[tactic(auto, using(rds_lists::proofs::ListFacts::rest, crate::proofs::WalkSteps::items_none, crate::proofs::WalkSteps::items_more, crate::proofs::WalkSteps::items_empty))]
pub fn all_items(s: &[u8], left: usize) -> bool
    ensures { result ≡ items_from left s.now }
{
    if s.is_empty() {
        return true;
    }
    match item_length(s) {
        Some(n) if 0 < left => all_items(&s[n..], left - 1),
        _ => false,
    }
}
