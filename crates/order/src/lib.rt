// The order of the sessions, for any device: definitions and a theorem, no code.
#![tactic(auto)]
