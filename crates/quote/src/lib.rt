// A contract's quote: what the cells of an update hold, and the values that it is written from. And what serves every quote: its
// numbers, and where the rows of a form stand.
#![tactic(auto)]

mod quote;

pub use quote::{
    MOST_ORDERS, Order, Places, Quote, cell_from, places_of, put_three, put_two, quantity_at,
    quantity_value, quote_of, side_rows, values_of,
};
