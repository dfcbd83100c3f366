// Laws of lists that the crates of the Reliable Data Service share: there is no code here.
#![tactic(auto)]
