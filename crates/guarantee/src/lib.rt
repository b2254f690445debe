// The guarantee: what holds of every machine after any list of calls. It has no code; the machine's contracts name it.

#![tactic(auto)]
