// Theorems alone: see proofs/.
#![tactic(auto)]
