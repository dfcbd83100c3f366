// Salvage in the sentences of document 02, L12: laws alone.
#![tactic(auto)]
