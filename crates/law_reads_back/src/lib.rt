// What is written reads back as itself: laws only.
#![tactic(auto)]
