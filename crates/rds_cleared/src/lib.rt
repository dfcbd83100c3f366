// Promise 4, of the header: what was read is said by its words, and written again with its spare bits cleared. There is no code here.
#![tactic(auto)]
