// Runs of missing numbers in a lent row: copied out of it and back, and as numbers.
#![tactic(auto)]

mod copy;
mod numbers;
mod run;

pub use copy::{back, out};
pub use numbers::{flat, paired};
pub use run::{MOST, ROW, Run};
