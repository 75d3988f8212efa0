// The messages of a batch, in turn.
#![tactic(auto)]

mod act;

pub use act::{InTurn, judge_messages};
