// The engine's calls as one type, with the plan of each: definitions alone.
#![tactic(auto)]
