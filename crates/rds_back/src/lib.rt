// Promise 4: what was read is written again with its spare bits cleared, and those alone. There is no code here.
#![tactic(auto)]
