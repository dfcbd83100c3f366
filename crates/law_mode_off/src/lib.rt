// The waiting limit off (02, L6): the engine is the base's. Laws only.
#![tactic(auto)]
