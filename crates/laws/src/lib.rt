// Facts on numbers and lists that the kit's library lacks; the crate has no code.
#![tactic(auto)]
