// The transfer of an instruction as document 01 says it: definitions in specs/, one text over any tables, and no code.
#![tactic(auto)]
