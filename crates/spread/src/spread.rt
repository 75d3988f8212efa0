ghost use Rattle.std.specs.Prelude.{◌≡◌, ◌+◌, ◌≤◌};
ghost use Rattle.quote.specs.Inner.{Room, near, cell_from, puts, side_at, put_side};
ghost use Rattle.spread.specs.Inner.{spread_order_values, put_differences};
ghost use Rattle.spread.specs.Spread.{difference_in, value_of_difference, spread_order_in, spread_quote_of, spread_values_of};
ghost use Rattle.spread.specs.Shows.{no_spread_order};

use amount::{Difference, Quantity};
use layout::{Form, Held, MOST_ROWS};
use quote::{MOST_ORDERS, Places};

// A price difference and a quantity: each an amount, or "none", which is not zero.
#[derive(Clone, Copy)]
pub struct SpreadOrder {
    pub price: Option<Difference>,
    pub quantity: Option<Quantity>,
}

// The rows of an update of a pair behind its key, as a quote has a contract's. Minus zero is zero.
#[derive(Clone, Copy)]
pub struct SpreadQuote {
    pub buy: [SpreadOrder; MOST_ORDERS],
    pub sell: [SpreadOrder; MOST_ORDERS],
    pub last: Option<Difference>,
    pub traded: Option<Quantity>,
    pub opening: Option<Difference>,
    pub high: Option<Difference>,
    pub low: Option<Difference>,
    pub buyers: Option<Quantity>,
    pub sellers: Option<Quantity>,
}

fn difference_at(cells: &[u64; MOST_ROWS], row: usize) -> Option<Difference>
    ensures { result ≡ difference_in (cell_from cells.now row) }
{
    match layout::held_in(true, quote::cell_from(cells, row)) {
        Held::Nothing => None,
        Held::Units(units) => Some(Difference(false, units)),
        Held::Below(units) => Some(Difference(true, units)),
    }
}

fn difference_value(difference: Option<Difference>) -> u64
    ensures { result ≡ value_of_difference difference }
{
    difference.map_or(
        layout::NONE,
        |d| layout::value_of(true, layout::sided(d.0, d.1)),
    )
}

fn spread_order_at(cells: &[u64; MOST_ROWS], row: usize) -> SpreadOrder
    ensures { result ≡ spread_order_in (cell_from cells.now row) (cell_from cells.now (row + 1)) }
{
    SpreadOrder {
        price: difference_at(cells, row),
        quantity: quote::quantity_at(cells, row.saturating_add(1)),
    }
}

fn spread_side_at(cells: &[u64; MOST_ROWS], first: usize, more: usize) -> [SpreadOrder; MOST_ORDERS]
    requires { more + 6 ≤ near }
    ensures { result ≡ side_at spread_order_in first more cells.now }
{
    quote::side_rows(first, more).map(|row| spread_order_at(cells, row))
}

// What the cells of a message of that form hold.
pub fn spread_quote_of(form: Form, cells: &[u64; MOST_ROWS]) -> SpreadQuote
    ensures { result ≡ spread_quote_of form cells.now }
{
    let at = quote::places_of(form);
    SpreadQuote {
        buy: spread_side_at(cells, at.buy, at.more_buy),
        sell: spread_side_at(cells, at.sell, at.more_sell),
        last: difference_at(cells, at.last),
        traded: quote::quantity_at(cells, at.last + 1),
        opening: difference_at(cells, at.opening),
        high: difference_at(cells, at.opening + 1),
        low: difference_at(cells, at.opening + 2),
        buyers: quote::quantity_at(cells, at.totals),
        sellers: quote::quantity_at(cells, at.totals + 1),
    }
}

fn put_spread_order(order: SpreadOrder, row: usize, values: &mut [u64; MOST_ROWS])
    requires { row ≤ near }
    ensures { values.new ≡ puts values.old row (spread_order_values order) }
{
    quote::put_two(
        difference_value(order.price),
        quote::quantity_value(order.quantity),
        row,
        values,
    );
}

fn put_spread_side(
    orders: [SpreadOrder; MOST_ORDERS],
    first: usize,
    more: usize,
    values: &mut [u64; MOST_ROWS],
)
    requires { (first ≤ near) × (more + 6 ≤ near) }
    ensures { values.new ≡ put_side spread_order_values no_spread_order orders first more values.old }
{
    put_spread_order(orders[0], first, values);
    put_spread_order(orders[1], more, values);
    put_spread_order(orders[2], more + 2, values);
    put_spread_order(orders[3], more + 4, values);
    put_spread_order(orders[4], more + 6, values);
}

// What is told of the trades of the day, and of all orders.
fn put_differences(quote: SpreadQuote, at: Places, values: &mut [u64; MOST_ROWS])
    requires { Room at }
    ensures { values.new ≡ put_differences at quote values.old }
{
    quote::put_two(
        difference_value(quote.last),
        quote::quantity_value(quote.traded),
        at.last,
        values,
    );
    quote::put_three(
        difference_value(quote.opening),
        difference_value(quote.high),
        difference_value(quote.low),
        at.opening,
        values,
    );
    quote::put_two(
        quote::quantity_value(quote.buyers),
        quote::quantity_value(quote.sellers),
        at.totals,
        values,
    );
}

// The values that a message of that form is written from.
pub fn spread_values_of(form: Form, quote: SpreadQuote) -> [u64; MOST_ROWS]
    ensures { result ≡ spread_values_of form quote }
{
    let at = quote::places_of(form);
    let mut values = [0u64; MOST_ROWS];
    put_spread_side(quote.buy, at.buy, at.more_buy, &mut values);
    put_spread_side(quote.sell, at.sell, at.more_sell, &mut values);
    put_differences(quote, at, &mut values);
    values
}
