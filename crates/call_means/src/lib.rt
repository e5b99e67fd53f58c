// What a call for one instruction means on plain tables, and its promise: definitions and laws in specs/, and no code.
#![tactic(auto)]
