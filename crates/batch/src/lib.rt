// A batch: judging it, and taking it.
#![tactic(auto)]

mod batch;
mod scratch;

pub use batch::{judge, take};
