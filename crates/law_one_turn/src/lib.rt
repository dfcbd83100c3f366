// What an accepted call does to one record, and to no other name: laws only.
#![tactic(auto)]
