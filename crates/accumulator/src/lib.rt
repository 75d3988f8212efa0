// The checksum's accumulator: a bit, a byte and a word of eight bytes a step.
#![tactic(auto)]

mod steps;
mod words;

pub use steps::byte_step;
pub use words::{Words, next, none, settled};
