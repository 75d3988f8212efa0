// How a number in text is read: one reader for every kind.
#![tactic(auto)]

mod text;
mod units;

pub use text::read;
