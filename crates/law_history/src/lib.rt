// Demand 3: what no sequence of calls can break: definitions alone.
#![tactic(auto)]
