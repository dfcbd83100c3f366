// The rows of document 01, "Events", once more as sparse lists, and their agreement with row_choice: no code.
#![tactic(auto)]
