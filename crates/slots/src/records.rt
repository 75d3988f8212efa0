// Where records stand in lent memory: those of all contracts, then those of all pairs.
ghost use Rattle.std.specs.Prelude.{◌≡◌, ◌^◌, ◌<◌};
ghost use Rattle.pairs.specs.Lists.{lists};
ghost use Rattle.slots.specs.Slots.{cells_in_front, item_cells, level_cells, records_wanted};
ghost use Rattle.slots.specs.Places.{record_rows, record_at, front_in, FrontsOf};

use layout::{Item, Level};

// The cells of a record: a number, a contract's session, then a cell a row; level 1, and behind it level 2. A contract's level 2 has
// the most.
const CONTRACT_FRONT: usize = 2;

const PAIR_FRONT: usize = 1;

const CONTRACT_ONE: usize = 17;

pub const CONTRACT_TWO: usize = CONTRACT_FRONT + layout::MOST_ROWS - layout::KEY_ROWS;

pub const CONTRACT: usize = CONTRACT_ONE + CONTRACT_TWO;

const PAIR_ONE: usize = 10;

const PAIR_TWO: usize = 28;

pub const PAIR: usize = PAIR_ONE + PAIR_TWO;

// Where a segment's records begin.
#[derive(Clone, Copy)]
pub struct Fronts {
    pub contracts: usize,
    pub pairs: usize,
}

// What stands in a record before its rows.
pub fn cells_in_front(item: Item) -> usize
    ensures { result ≡ cells_in_front item }
{
    match item {
        Item::Contract => CONTRACT_FRONT,
        Item::Pair => PAIR_FRONT,
    }
}

// The rows that a record of a level holds: those behind the key.
#[tactic(auto, unfolding(crate::specs::Places::record_rows))]
pub fn record_rows(item: Item, level: Level) -> usize
    ensures { result ≡ record_rows item level }
{
    rows::count_of(layout::record_form(item, level)) - layout::key_rows_of(item)
}

// The cells wanted for records.
#[tactic(auto, using(files::specs::FileLaws::before_under))]
pub fn records_wanted(list: &[u8], spreads: &[u8]) -> usize
    ensures { result ≡ records_wanted (lists list.now spreads.now) }
{
    CONTRACT * files::all_contracts(list) + PAIR * files::all_contracts(spreads)
}

#[tactic(auto, using(files::specs::FileLaws::before_under))]
pub fn fronts_of(list: &[u8], spreads: &[u8], segment: usize) -> Fronts
    ensures { FrontsOf (lists list.now spreads.now) segment result }
{
    let contracts = CONTRACT * files::contracts_before(list, segment);
    let all = CONTRACT * files::all_contracts(list);
    let pairs = all + PAIR * files::contracts_before(spreads, segment);
    Fronts { contracts, pairs }
}

fn cells_of(item: Item) -> usize
    ensures { result ≡ item_cells item }
{
    match item {
        Item::Contract => CONTRACT,
        Item::Pair => PAIR,
    }
}

fn front_in(fronts: Fronts, item: Item) -> usize
    ensures { result ≡ front_in fronts item }
{
    match item {
        Item::Contract => fronts.contracts,
        Item::Pair => fronts.pairs,
    }
}

// The cells of a record of a level.
pub fn level_cells(item: Item, level: Level) -> usize
    ensures { result ≡ level_cells item level }
{
    match item {
        Item::Contract => match level {
            Level::One => CONTRACT_ONE,
            Level::Two => CONTRACT_TWO,
        },
        Item::Pair => match level {
            Level::One => PAIR_ONE,
            Level::Two => PAIR_TWO,
        },
    }
}

// Where a record of a level begins.
pub fn record_at(fronts: Fronts, item: Item, place: usize, level: Level) -> usize
    requires { (front_in fronts item < 2 ^ 40) × (place < 65536) }
    ensures { result ≡ record_at item (front_in fronts item) place level }
{
    let first = front_in(fronts, item) + cells_of(item) * place;
    match level {
        Level::One => first,
        Level::Two => first + level_cells(item, Level::One),
    }
}
