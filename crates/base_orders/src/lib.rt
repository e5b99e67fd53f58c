// Laws of joins and their orders, for any type: this crate has definitions and laws in specs/ and no code.
#![tactic(auto)]
