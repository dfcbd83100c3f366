// The laws of the waiting limit: no code.
#![tactic(auto)]
