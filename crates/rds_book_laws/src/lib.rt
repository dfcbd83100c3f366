// Laws of the port book's calls; no code.
#![tactic(auto)]
