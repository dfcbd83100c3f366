// Demand 3 holds after any calls, in any order, from any table that satisfies it: laws alone.
#![tactic(auto)]
