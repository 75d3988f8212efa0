// The writer: a heartbeat or an update, of a contract or of a pair, written into lent bytes.
#![tactic(auto)]

mod writing;

pub use writing::{Code, write_message, write_spread};
