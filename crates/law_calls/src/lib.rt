// What every call of the engine keeps: one outcome, a well-formed table, all but one record, and an abort apart from a result: laws alone.
#![tactic(auto)]
