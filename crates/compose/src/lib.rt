// Writing the rows of an update from values.
#![tactic(auto)]

mod write;

pub use write::{put_front, write_update};
