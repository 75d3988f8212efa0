// What a box begins with: the spread list of a host that has none, and a start.
#![tactic(auto)]

mod spreads;
mod starting;

pub use spreads::no_spreads;
pub use starting::start;
