// Promises 7, 8 and 9 of the port book: what no sequence of calls can break; no code.
#![tactic(auto)]
