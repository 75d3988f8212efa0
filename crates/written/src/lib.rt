// Theorems on what is written: that it reads back, and when it is refused; the crate has no code.
#![tactic(auto)]
