// The cases of 01, computed by the definitions that the promises cite: a crate of laws alone, so that no edit of another pays for them.
#![tactic(auto)]
