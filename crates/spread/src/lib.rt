// A pair's quote: what the cells of an update hold, and the values that it is written from.
#![tactic(auto)]

mod spread;

pub use spread::{SpreadOrder, SpreadQuote, spread_quote_of, spread_values_of};
