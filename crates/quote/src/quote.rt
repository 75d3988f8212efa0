ghost use Rattle.std.specs.Prelude.{◌≡◌, [], ◌∷◌, ◌+◌, ◌≤◌};
ghost use Rattle.layout.specs.Cells.{byte_in};
ghost use Rattle.quote.specs.Quote.{price_in, quantity_in, turnover_in, value_of_price, value_of_quantity, value_of_turnover, order_in, quote_of, values_of};
ghost use Rattle.quote.specs.Shows.{no_order};
ghost use Rattle.quote.specs.Inner.{Room, near, places_of, cell_from, units_in, value_of_units, put_at, puts, side_at, put_side, order_values, put_trades, put_own};

use amount::{Price, Quantity, Turnover};
use layout::{Form, Held, KEY_ROWS, MOST_ROWS, PAIR_ROWS};

// The most orders of a side.
pub const MOST_ORDERS: usize = 5;

// A price and a quantity: each an amount of its own kind, or "none", which is not zero.
#[derive(Clone, Copy)]
pub struct Order {
    pub price: Option<Price>,
    pub quantity: Option<Quantity>,
}

// The rows of an update behind its key. What a form has no row for reads as none, and is not looked at in writing.
#[derive(Clone, Copy)]
pub struct Quote {
    pub market_type: u8,
    pub time_stamp: Option<Quantity>,
    pub buy: [Order; MOST_ORDERS],
    pub sell: [Order; MOST_ORDERS],
    pub last: Option<Price>,
    pub traded: Option<Quantity>,
    pub status: u8,
    pub opening: Option<Price>,
    pub high: Option<Price>,
    pub low: Option<Price>,
    pub close: Option<Price>,
    pub average: Option<Price>,
    pub buyers: Option<Quantity>,
    pub sellers: Option<Quantity>,
    pub turnover: Option<Turnover>,
}

// Where the rows of a form stand: one that it has not stands behind the last. Behind the first order of a side the others stand in
// turn, behind the last traded price its quantity, behind the opening price high and low, behind the close the average,
// behind the total of the buyers that of the sellers.
#[derive(Clone, Copy)]
pub struct Places {
    pub market_type: usize,
    pub time_stamp: usize,
    pub buy: usize,
    pub more_buy: usize,
    pub sell: usize,
    pub more_sell: usize,
    pub last: usize,
    pub status: usize,
    pub opening: usize,
    pub close: usize,
    pub totals: usize,
    pub turnover: usize,
}

const NO_PLACES: Places = Places {
    market_type: MOST_ROWS,
    time_stamp: MOST_ROWS,
    buy: MOST_ROWS,
    more_buy: MOST_ROWS,
    sell: MOST_ROWS,
    more_sell: MOST_ROWS,
    last: MOST_ROWS,
    status: MOST_ROWS,
    opening: MOST_ROWS,
    close: MOST_ROWS,
    totals: MOST_ROWS,
    turnover: MOST_ROWS,
};

const LEVEL_ONE: Places = Places {
    market_type: KEY_ROWS,
    buy: 6,
    sell: 8,
    last: 10,
    status: 12,
    opening: 13,
    close: 16,
    turnover: 18,
    ..NO_PLACES
};

const LEVEL_TWO: Places = Places {
    market_type: KEY_ROWS,
    buy: 6,
    more_buy: 8,
    sell: 16,
    more_sell: 18,
    last: 26,
    status: 28,
    opening: 29,
    close: 32,
    totals: 34,
    turnover: 36,
    ..NO_PLACES
};

const FUTURE_ONE: Places = Places {
    market_type: KEY_ROWS,
    time_stamp: 6,
    buy: 7,
    sell: 9,
    last: 11,
    status: 13,
    opening: 14,
    close: 17,
    turnover: 19,
    ..NO_PLACES
};

const FUTURE_TWO: Places = Places {
    market_type: KEY_ROWS,
    time_stamp: 6,
    buy: 7,
    more_buy: 9,
    sell: 17,
    more_sell: 19,
    last: 27,
    status: 29,
    opening: 30,
    close: 33,
    totals: 35,
    turnover: 37,
    ..NO_PLACES
};

const PAIR_ONE: Places = Places {
    buy: PAIR_ROWS,
    sell: 12,
    last: 14,
    opening: 16,
    ..NO_PLACES
};

const PAIR_TWO: Places = Places {
    buy: PAIR_ROWS,
    more_buy: 12,
    sell: 20,
    more_sell: 22,
    last: 30,
    opening: 32,
    totals: 35,
    ..NO_PLACES
};

pub fn places_of(form: Form) -> Places
    ensures { (result ≡ places_of form) × Room result }
{
    match form {
        Form::Heartbeat => NO_PLACES,
        Form::LevelOne => LEVEL_ONE,
        Form::LevelTwo => LEVEL_TWO,
        Form::PairOne => PAIR_ONE,
        Form::PairTwo => PAIR_TWO,
        Form::FutureOne | Form::PreOpenOne => FUTURE_ONE,
        Form::FutureTwo | Form::PreOpenTwo => FUTURE_TWO,
    }
}

pub fn cell_from(cells: &[u64; MOST_ROWS], row: usize) -> u64
    ensures { result ≡ cell_from cells.now row }
{
    cells.get(row).copied().unwrap_or(layout::NONE)
}

fn letter_at(cells: &[u64; MOST_ROWS], row: usize) -> u8
    ensures { result ≡ byte_in (cell_from cells.now row) }
{
    layout::byte_in(cell_from(cells, row))
}

// An amount, whatever its kind; none of them is below zero.
fn units_at(cells: &[u64; MOST_ROWS], row: usize) -> Option<u64>
    ensures { result ≡ units_in (cell_from cells.now row) }
{
    match layout::held_in(false, cell_from(cells, row)) {
        Held::Units(units) => Some(units),
        Held::Nothing | Held::Below(_) => None,
    }
}

fn price_at(cells: &[u64; MOST_ROWS], row: usize) -> Option<Price>
    ensures { result ≡ price_in (cell_from cells.now row) }
{
    units_at(cells, row).map(Price)
}

pub fn quantity_at(cells: &[u64; MOST_ROWS], row: usize) -> Option<Quantity>
    ensures { result ≡ quantity_in (cell_from cells.now row) }
{
    units_at(cells, row).map(Quantity)
}

fn turnover_at(cells: &[u64; MOST_ROWS], row: usize) -> Option<Turnover>
    ensures { result ≡ turnover_in (cell_from cells.now row) }
{
    units_at(cells, row).map(Turnover)
}

fn units_value(units: Option<u64>) -> u64
    ensures { result ≡ value_of_units units }
{
    units.map_or(layout::NONE, |n| layout::value_of(false, Held::Units(n)))
}

fn price_value(price: Option<Price>) -> u64
    ensures { result ≡ value_of_price price }
{
    units_value(price.map(|p| p.0))
}

pub fn quantity_value(quantity: Option<Quantity>) -> u64
    ensures { result ≡ value_of_quantity quantity }
{
    units_value(quantity.map(|q| q.0))
}

fn turnover_value(turnover: Option<Turnover>) -> u64
    ensures { result ≡ value_of_turnover turnover }
{
    units_value(turnover.map(|t| t.0))
}

pub fn put_value(value: u64, row: usize, values: &mut [u64; MOST_ROWS])
    ensures { values.new ≡ put_at values.old row value }
{
    if row < MOST_ROWS {
        values[row] = value;
    }
}

// Values in turn, from that row on.
pub fn put_two(first: u64, second: u64, row: usize, values: &mut [u64; MOST_ROWS])
    requires { row ≤ near }
    ensures { values.new ≡ puts values.old row (first ∷ second ∷ []) }
{
    put_value(first, row, values);
    put_value(second, row + 1, values);
}

pub fn put_three(first: u64, second: u64, third: u64, row: usize, values: &mut [u64; MOST_ROWS])
    requires { row ≤ near }
    ensures { values.new ≡ puts values.old row (first ∷ second ∷ third ∷ []) }
{
    put_value(first, row, values);
    put_value(second, row + 1, values);
    put_value(third, row + 2, values);
}

// Behind the last row there is none.
fn order_at(cells: &[u64; MOST_ROWS], row: usize) -> Order
    ensures { result ≡ order_in (cell_from cells.now row) (cell_from cells.now (row + 1)) }
{
    Order {
        price: price_at(cells, row),
        quantity: quantity_at(cells, row.saturating_add(1)),
    }
}

// The rows of a side's orders: the first, and those from another row on.
pub fn side_rows(first: usize, more: usize) -> [usize; MOST_ORDERS]
    requires { more + 6 ≤ near }
    ensures { result ≡ first ∷ more ∷ (more + 2) ∷ (more + 4) ∷ (more + 6) ∷ [] }
{
    [first, more, more + 2, more + 4, more + 6]
}

fn side_at(cells: &[u64; MOST_ROWS], first: usize, more: usize) -> [Order; MOST_ORDERS]
    requires { more + 6 ≤ near }
    ensures { result ≡ side_at order_in first more cells.now }
{
    side_rows(first, more).map(|row| order_at(cells, row))
}

// What the cells of a message of that form hold.
pub fn quote_of(form: Form, cells: &[u64; MOST_ROWS]) -> Quote
    ensures { result ≡ quote_of form cells.now }
{
    let at = places_of(form);
    Quote {
        market_type: letter_at(cells, at.market_type),
        time_stamp: quantity_at(cells, at.time_stamp),
        buy: side_at(cells, at.buy, at.more_buy),
        sell: side_at(cells, at.sell, at.more_sell),
        last: price_at(cells, at.last),
        traded: quantity_at(cells, at.last + 1),
        status: letter_at(cells, at.status),
        opening: price_at(cells, at.opening),
        high: price_at(cells, at.opening + 1),
        low: price_at(cells, at.opening + 2),
        close: price_at(cells, at.close),
        average: price_at(cells, at.close + 1),
        buyers: quantity_at(cells, at.totals),
        sellers: quantity_at(cells, at.totals + 1),
        turnover: turnover_at(cells, at.turnover),
    }
}

fn put_order(order: Order, row: usize, values: &mut [u64; MOST_ROWS])
    requires { row ≤ near }
    ensures { values.new ≡ puts values.old row (order_values order) }
{
    put_two(
        price_value(order.price),
        quantity_value(order.quantity),
        row,
        values,
    );
}

fn put_side(orders: [Order; MOST_ORDERS], first: usize, more: usize, values: &mut [u64; MOST_ROWS])
    requires { (first ≤ near) × (more + 6 ≤ near) }
    ensures { values.new ≡ put_side order_values no_order orders first more values.old }
{
    put_order(orders[0], first, values);
    put_order(orders[1], more, values);
    put_order(orders[2], more + 2, values);
    put_order(orders[3], more + 4, values);
    put_order(orders[4], more + 6, values);
}

// What is told of the trades of the day, and of all orders.
fn put_trades(quote: Quote, at: Places, values: &mut [u64; MOST_ROWS])
    requires { Room at }
    ensures { values.new ≡ put_trades at quote values.old }
{
    put_two(
        price_value(quote.last),
        quantity_value(quote.traded),
        at.last,
        values,
    );
    put_three(
        price_value(quote.opening),
        price_value(quote.high),
        price_value(quote.low),
        at.opening,
        values,
    );
    put_two(
        quantity_value(quote.buyers),
        quantity_value(quote.sellers),
        at.totals,
        values,
    );
}

// What only contracts are told of: market type, time stamp, status, close and average price, turnover.
fn put_own(quote: Quote, at: Places, values: &mut [u64; MOST_ROWS])
    requires { Room at }
    ensures { values.new ≡ put_own at quote values.old }
{
    put_value(u64::from(quote.market_type), at.market_type, values);
    put_value(quantity_value(quote.time_stamp), at.time_stamp, values);
    put_value(u64::from(quote.status), at.status, values);
    put_two(
        price_value(quote.close),
        price_value(quote.average),
        at.close,
        values,
    );
    put_value(turnover_value(quote.turnover), at.turnover, values);
}

// The values that a message of that form is written from.
pub fn values_of(form: Form, quote: Quote) -> [u64; MOST_ROWS]
    ensures { result ≡ values_of form quote }
{
    let at = places_of(form);
    let mut values = [0u64; MOST_ROWS];
    put_side(quote.buy, at.buy, at.more_buy, &mut values);
    put_side(quote.sell, at.sell, at.more_sell, &mut values);
    put_trades(quote, at, &mut values);
    put_own(quote, at, &mut values);
    values
}
