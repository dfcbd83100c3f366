// The starred cases of document 01 on octets, as one table of theorems.
#![tactic(auto)]
