// The call that an accepted image makes earns no refusal 1 to 5: laws of the definitions in specs/, and no code.
#![tactic(auto)]
