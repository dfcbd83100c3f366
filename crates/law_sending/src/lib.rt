// What is said of the PDUs that we send: laws only.
#![tactic(auto)]
