// The laws of TIDnew: no code.
#![tactic(auto)]
