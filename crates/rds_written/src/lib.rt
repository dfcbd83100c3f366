// Promise 3: what is written reads as itself. There is no code here.
#![tactic(auto)]
