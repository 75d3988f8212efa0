// Theorems over every history of public calls; the crate has no code.
#![tactic(auto)]
