// Tests and choices, and laws of Bool and of order that every crate may use: this crate has definitions and laws in specs/ and no code.
#![tactic(auto)]
