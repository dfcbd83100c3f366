// What was read is written as it was, reserved bits cleared: laws only.
#![tactic(auto)]
