// Finding in a house file: a segment's letter, and a key.
#![tactic(auto)]

mod lookup;

pub use lookup::{Sought, place_of, segment_of};
