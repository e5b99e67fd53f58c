// The order of whole states, and what a merge is in it: laws of the definition in specs/, and no code.
#![tactic(auto)]
