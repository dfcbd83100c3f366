// Each step that a call plans may be carried out, and keeps the table well formed: laws alone.
#![tactic(auto)]
