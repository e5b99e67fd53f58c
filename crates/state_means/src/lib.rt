// The calls on a lent state mean the definition on plain tables: laws in specs/, and no code.
#![tactic(auto)]
