// The layout of a table and the bounds of document 01, said once more as sums: laws only.
#![tactic(auto)]
