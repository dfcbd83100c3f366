// An abort and an empty result are never taken for each other: laws alone.
#![tactic(auto)]
