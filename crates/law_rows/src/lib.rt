// Laws of all rows: what is shown, where a record goes, what counts, and that a turn keeps a record in range. No code.
#![tactic(auto)]
