// How far the counts of an instruction go: laws of the definition in specs/, and no code.
#![tactic(auto)]
