// An accepted call keeps the table well formed, and changes no other record: laws only.
#![tactic(auto)]
