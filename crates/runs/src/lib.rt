// The public calls over a lent row of runs: document 01's gap list as a slice of structs.
#![tactic(auto)]

mod calls;
mod front;
mod refusal;

pub use calls::{judge, list_gaps, read_record, read_spread, start, take, write_off};
pub use copies::{MOST, Run};
