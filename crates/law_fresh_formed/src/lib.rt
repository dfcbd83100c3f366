// The fresh-table call leaves a well-formed table: laws only.
#![tactic(auto)]
