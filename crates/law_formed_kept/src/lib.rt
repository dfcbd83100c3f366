// No code: what leaves a well-formed table well formed.
#![tactic(auto)]
