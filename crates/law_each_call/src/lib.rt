// Demand 3's sentences that speak of one call alone: which record changes, octet by octet, and the user's own abort: laws alone.
#![tactic(auto)]
