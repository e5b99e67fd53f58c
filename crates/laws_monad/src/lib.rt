// Laws of computations, for the proofs of code. There is no code here.
#![tactic(auto)]
