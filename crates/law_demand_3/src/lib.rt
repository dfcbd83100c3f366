// Demand 3 of the code: laws alone.
#![tactic(auto)]
