// The spread list beside the contract list: checking it, and the one without pairs.
#![tactic(auto)]

mod habit;
mod no_spreads;
mod spreads;

pub use habit::PAIRS;
pub use no_spreads::{no_spreads_size, put_no_spreads};
pub use spreads::{spread_header_sound, spreads_sound};
