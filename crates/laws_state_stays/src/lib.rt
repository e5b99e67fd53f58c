// Accepted states stay accepted under the public calls and merges: laws of the definitions in specs/, and no code.
#![tactic(auto)]
