// How a number in text is written: one writer for every kind.
#![tactic(auto)]

mod text;

pub use text::{blank, write};
