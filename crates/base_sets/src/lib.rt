// Sets of value numbers, each one number with a bit for each member: definitions and laws in specs/, and no code.
#![tactic(auto)]
