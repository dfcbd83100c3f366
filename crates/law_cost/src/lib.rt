// The laws of what a request costs: no code.
#![tactic(auto)]
