// A call that no class refuses lists all its effects: laws of the definitions in specs/, and no code.
#![tactic(auto)]
