// A house file, as the contract list is one and the spread list another: its header, and its keys and their order.
#![tactic(auto)]

mod habit;
mod header;
mod key;

pub use habit::{CONTRACTS, Habit};
pub use header::{
    ENTRY, NUMBER, all_contracts, contracts_before, count_at, letter_at, offset_at, segments,
    zero_at,
};
pub use key::{key_in, order_of};
