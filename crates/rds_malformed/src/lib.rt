// The fourteen ways in which a frame is malformed, and that the reader refuses exactly those: there is no code here.
#![tactic(auto)]
