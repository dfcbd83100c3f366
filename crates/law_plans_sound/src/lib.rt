// Each plan's step is sound: laws alone.
#![tactic(auto)]
