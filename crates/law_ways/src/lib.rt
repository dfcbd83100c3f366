// The four ways that an accepted call can go: laws alone.
#![tactic(auto)]
