// Theorems over every history of calls over a lent row of runs: a crate of laws alone.
#![tactic(auto)]
