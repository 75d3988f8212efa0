// An update's values, as hosts and the test bench are told them: number, a contract's session, and one a row behind the key, in the
// order of a record's cells. Today a value stands for what a cell of the same bits holds, so a quote is made of values as it is of cells.
#![tactic(auto)]

ghost use Rattle.std.specs.Prelude.{◌≡◌, ◌+◌, ◌≤◌, length, take, drop, replicate};
ghost use Rattle.std.proofs.lemmas.List.Edits.{sets};
ghost use Rattle.forms.specs.Forms.{key_rows_of};
ghost use Rattle.forms.specs.Sizes.{most_rows};
ghost use Rattle.slots.specs.Places.{record_rows};
ghost use Rattle.values.specs.Values.{first, most, row_values, quote_in, spread_values, spread_in};

use layout::{Item, Level, MOST_ROWS};
use quote::Quote;
use spread::SpreadQuote;

// What a value holds for "none".
pub const NONE: u64 = 0xffff_ffff_ffff_ffff;

// The values of the level that has the most: as many as its record has cells.
pub const MOST: usize = slots::CONTRACT_TWO;

// The values of the rows behind the key, of those of all rows. What stands before them stays as it is, and so do values that the level
// has no row for.
fn put_rows(item: Item, level: Level, laid: &[u64; MOST_ROWS], values: &mut [u64; MOST])
    ensures { values.new
        ≡ sets values.old (first item) (take (record_rows item level) (drop (key_rows_of item) laid.now)) }
{
    let behind = layout::key_rows_of(item);
    let at = slots::cells_in_front(item);
    let rows = slots::record_rows(item, level);
    values[at..at + rows].copy_from_slice(&laid[behind..behind + rows]);
}

// Number and session aren't looked at.
fn laid_in(item: Item, level: Level, values: &[u64; MOST]) -> [u64; MOST_ROWS]
    ensures { (length values.now ≡ most)
        × (result ≡ sets (replicate most_rows 0) (key_rows_of item) (take (record_rows item level) (drop (first item) values.now))) }
{
    let mut laid = [0u64; MOST_ROWS];
    let from = slots::cells_in_front(item);
    let at = layout::key_rows_of(item);
    let count = slots::record_rows(item, level);
    laid[at..at + count].copy_from_slice(&values[from..from + count]);
    laid
}

pub fn put(level: Level, quote: Quote, values: &mut [u64; MOST])
    ensures { values.new ≡ sets values.old (first Item.Contract) (row_values level quote) }
{
    let laid = quote::values_of(layout::record_form(Item::Contract, level), quote);
    put_rows(Item::Contract, level, &laid, values);
}

pub fn quote_in(level: Level, values: &[u64; MOST]) -> Quote
    ensures { result ≡ quote_in level values.now }
{
    let laid = laid_in(Item::Contract, level, values);
    quote::quote_of(layout::record_form(Item::Contract, level), &laid)
}

pub fn put_spread(level: Level, quote: SpreadQuote, values: &mut [u64; MOST])
    ensures { values.new ≡ sets values.old (first Item.Pair) (spread_values level quote) }
{
    let laid = spread::spread_values_of(layout::record_form(Item::Pair, level), quote);
    put_rows(Item::Pair, level, &laid, values);
}

pub fn spread_in(level: Level, values: &[u64; MOST]) -> SpreadQuote
    ensures { result ≡ spread_in level values.now }
{
    let laid = laid_in(Item::Pair, level, values);
    spread::spread_quote_of(layout::record_form(Item::Pair, level), &laid)
}
