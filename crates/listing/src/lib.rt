// Listing a segment's gaps, and writing off the lowest run.
#![tactic(auto)]

mod gaps;

pub use gaps::{list_gaps, write_off};
