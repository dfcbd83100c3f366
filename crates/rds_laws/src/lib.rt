// Laws of the frames of the Reliable Data Service, and of the calls that read, take, put and write them: there is no code here.
#![tactic(auto)]
