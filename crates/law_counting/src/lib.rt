// What one record has sent and shown since its opening, and that no turn passes the limits: laws alone.
#![tactic(auto)]
