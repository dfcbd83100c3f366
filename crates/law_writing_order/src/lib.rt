// The order in which a writer refuses words, each reason on its own: laws only.
#![tactic(auto)]
