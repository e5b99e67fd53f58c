// Searches by halves along an order, and how many numbers pass a test: definitions in specs/, laws in proofs/.
#![tactic(auto)]
