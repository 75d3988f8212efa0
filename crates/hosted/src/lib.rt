// Theorems over every history of the calls that hosts make; the crate has no code.
#![tactic(auto)]
