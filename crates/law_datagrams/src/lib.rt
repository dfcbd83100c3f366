// Laws over separating and joining; there is no code here.
#![tactic(auto)]
