// A contract's or a pair's record of a level: its number, a contract's session, then one cell for each row behind the key.
ghost use Rattle.std.specs.Prelude.{◌≡◌, true, ◌+◌, ◌≤◌, length};
ghost use Rattle.pairs.specs.Lists.{lists};
ghost use Rattle.quote.specs.Quote.{quote_of};
ghost use Rattle.spread.specs.Spread.{spread_quote_of};
ghost use Rattle.state.specs.Memory.{lends};
ghost use Rattle.slots.specs.Slots.{cells_in_front};
ghost use Rattle.slots.specs.Places.{record_rows};
ghost use Rattle.reading.specs.Record.{stamp_shown, cells_at, Finds, blank, blank_spread, ReadsAt};
ghost use Rattle.reading.specs.Reads.{ReadRecord, ReadSpread};

use layout::{Form, Item, KEY_BYTES, KEY_ROWS, Level, MOST_ROWS, PAIR_BYTES, Session};
use quote::Quote;
use spread::SpreadQuote;
use state::{Recorded, Refusal};

// The time stamp's row: the one behind the market type's.
const TIME_STAMP: usize = KEY_ROWS + 1;

// With the quote of a record; beside any other answer every row is none.
#[derive(Clone, Copy)]
pub struct Reading {
    pub answer: Recorded,
    pub quote: Quote,
}

// The same of a pair.
#[derive(Clone, Copy)]
pub struct SpreadReading {
    pub answer: Recorded,
    pub quote: SpreadQuote,
}

// Of contracts F's alone show their time stamp: D and T have none, whatever stands in its cell.
fn stamp_shown(letter: u8) -> bool
    ensures { result ≡ stamp_shown Item.Contract letter }
{
    letter == b'F'
}

// The cells of a record by row: those of the key, and any behind the last row, are 0. The time stamp is none where it isn't shown.
fn cells_at(item: Item, stamped: bool, records: &[u64], at: usize, level: Level) -> [u64; MOST_ROWS]
    requires { at + cells_in_front item + record_rows item level ≤ length records.now }
    ensures { result ≡ cells_at item stamped records.now at level }
{
    let count = slots::record_rows(item, level);
    let key = layout::key_rows_of(item);
    let first = at + slots::cells_in_front(item);
    let mut cells = [0u64; MOST_ROWS];
    cells[key..key + count].copy_from_slice(&records[first..first + count]);
    if stamped {
        return cells;
    }
    cells[TIME_STAMP] = layout::NONE;
    cells
}

// Where the record that is asked for stands: the state, the letter's segment, and then the key, 13 where it isn't listed.
fn find_record(
    item: Item,
    list: &[u8],
    spreads: &[u8],
    rows: &[u32],
    records: &[u64],
    letter: u8,
    key: &[u8],
    level: Level,
) -> Result<usize, Refusal>
    ensures { Finds item (lends (lists list.now spreads.now) rows.now records.now) letter key.now level result }
{
    let segment = state::check_segment(list, spreads, rows, records, letter)?;
    let sought = message::find(list, spreads, item, Some(segment), key);
    let place = sought.found.ok_or(Refusal::Contract(0))?;
    let fronts = slots::fronts_of(list, spreads, segment);
    Ok(slots::record_at(fronts, item, place, level))
}

fn blank() -> Quote
    ensures { result ≡ blank }
{
    let cells = [layout::NONE; MOST_ROWS];
    quote::quote_of(Form::FutureTwo, &cells)
}

fn blank_spread() -> SpreadQuote
    ensures { result ≡ blank_spread }
{
    let cells = [layout::NONE; MOST_ROWS];
    spread::spread_quote_of(Form::PairTwo, &cells)
}

fn read_at(records: &[u64], at: usize, stamped: bool, level: Level) -> Reading
    requires { at + cells_in_front Item.Contract + record_rows Item.Contract level ≤ length records.now }
    ensures { ReadsAt quote_of blank Item.Contract stamped records.now at level result.answer result.quote }
{
    let number = records[at];
    if number == 0 {
        return Reading {
            answer: Recorded::NoRecord,
            quote: blank(),
        };
    }
    let session = layout::session_in(records[at + 1]);
    let cells = cells_at(Item::Contract, stamped, records, at, level);
    Reading {
        answer: Recorded::Record(number, session),
        quote: quote::quote_of(layout::record_form(Item::Contract, level), &cells),
    }
}

fn read_spread_at(records: &[u64], at: usize, level: Level) -> SpreadReading
    requires { at + cells_in_front Item.Pair + record_rows Item.Pair level ≤ length records.now }
    ensures { ReadsAt spread_quote_of blank_spread Item.Pair true records.now at level result.answer result.quote }
{
    let number = records[at];
    if number == 0 {
        return SpreadReading {
            answer: Recorded::NoRecord,
            quote: blank_spread(),
        };
    }
    let cells = cells_at(Item::Pair, true, records, at, level);
    SpreadReading {
        answer: Recorded::Record(number, Session::Normal),
        quote: spread::spread_quote_of(layout::record_form(Item::Pair, level), &cells),
    }
}

pub fn read_record(
    list: &[u8],
    spreads: &[u8],
    rows: &[u32],
    records: &[u64],
    letter: u8,
    key: &[u8; KEY_BYTES],
    level: Level,
) -> Reading
    ensures { ReadRecord (lends (lists list.now spreads.now) rows.now records.now) letter key.now level result }
{
    match find_record(
        Item::Contract,
        list,
        spreads,
        rows,
        records,
        letter,
        key,
        level,
    ) {
        Ok(at) => read_at(records, at, stamp_shown(letter), level),
        Err(refusal) => Reading {
            answer: Recorded::Refused(refusal),
            quote: blank(),
        },
    }
}

pub fn read_spread(
    list: &[u8],
    spreads: &[u8],
    rows: &[u32],
    records: &[u64],
    letter: u8,
    pair: &[u8; PAIR_BYTES],
    level: Level,
) -> SpreadReading
    ensures { ReadSpread (lends (lists list.now spreads.now) rows.now records.now) letter pair.now level result }
{
    match find_record(
        Item::Pair,
        list,
        spreads,
        rows,
        records,
        letter,
        pair,
        level,
    ) {
        Ok(at) => read_spread_at(records, at, level),
        Err(refusal) => SpreadReading {
            answer: Recorded::Refused(refusal),
            quote: blank_spread(),
        },
    }
}
