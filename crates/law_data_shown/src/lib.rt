// Demand 3: the data that is shown is that of the PDU it came with: laws alone.
#![tactic(auto)]
