// The timer call in two: laws alone.
#![tactic(auto)]
