// The order of D1 to D7 (document 01, "Malformed, in this order"), said of the octets: laws only.
#![tactic(auto)]
