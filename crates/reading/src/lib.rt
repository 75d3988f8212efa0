// Reading the record of a contract or of a pair, at a level.
#![tactic(auto)]

mod record;

pub use record::{Reading, SpreadReading, read_record, read_spread};
