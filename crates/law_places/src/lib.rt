// Where a record that is found lies, and that it is in range: laws alone.
#![tactic(auto)]
