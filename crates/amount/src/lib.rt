// Numbers in text: the kinds, each of them read and written as its own type.
#![tactic(auto)]

mod amount;
mod difference;
mod price;
mod quantity;
mod turnover;

pub use amount::Amount;
pub use decimal::{FieldFault, Held, Kind};
pub use difference::Difference;
pub use price::Price;
pub use print::{blank, write};
pub use quantity::Quantity;
pub use turnover::Turnover;
