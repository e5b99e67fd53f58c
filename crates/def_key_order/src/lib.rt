// The order of the keys of effects: definitions and laws, no code.
#![tactic(auto)]
