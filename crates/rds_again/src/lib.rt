// What was read is accepted again: the words of a sound frame, with the frame itself as the lent octets. There is no code here.
#![tactic(auto)]
