// Demand 3 of the exported functions: any calls of them, one after another: laws alone.
#![tactic(auto)]
