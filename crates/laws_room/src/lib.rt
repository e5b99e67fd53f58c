// How much room the interned effects of an instruction need, and that more room changes nothing: laws of the definition, and no code.
#![tactic(auto)]
