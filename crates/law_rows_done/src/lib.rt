// What the rows of document 01, "Events", do, once more as sparse lists, a column a list, and their agreement with row_entries: no code.
#![tactic(auto)]
