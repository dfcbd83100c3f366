// What document 01 says that a call leaves and shows, in its own words: GenTID, LastTID, the deadline, an abort's reason. Laws only.
#![tactic(auto)]
