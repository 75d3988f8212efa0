ghost use Rattle.std.specs.Prelude.{◌≡◌, ◌≤◌, cond, length};
ghost use Rattle.forms.specs.Forms.{rows_of};
ghost use Rattle.forms.specs.Sizes.{most_rows};
ghost use Rattle.layout.specs.Read.{read_row, SmallRead, of_number, is_market_type, is_status, bad_row, ReadsRows};

use crate::cells;
use amount::{Amount, Difference, FieldFault, Held, Price, Quantity, Turnover};
use forms::{Form, MOST_ROWS, Markets, Row};

// The first bad row, and what is wrong with its field.
#[derive(Clone, Copy, Debug, PartialEq, Eq)]
pub enum BadRow {
    Field(usize),
    Range(usize),
}

impl BadRow {
    pub fn of(fault: FieldFault, row: usize) -> Self
        ensures { result ≡ bad_row fault row }
    {
        match fault {
            FieldFault::Malformed => BadRow::Field(row),
            FieldFault::OutOfRange => BadRow::Range(row),
        }
    }
}

// Only an amount in range has a cell.
fn of_number(number: Result<Held, FieldFault>) -> Result<u64, FieldFault>
    requires { SmallRead number }
    ensures { result ≡ of_number number }
{
    Ok(cells::cell_of(number?))
}

// Whether a row takes a market type, which is read or to be written.
pub fn is_market(markets: Markets, letter: u64) -> bool
    ensures { result ≡ is_market_type markets letter }
{
    match markets {
        Markets::Normal => letter == u64::from(b'N'),
        // N, O, S, A.
        Markets::Any => matches!(letter, 78 | 79 | 83 | 65),
    }
}

// A letter's cell is its byte, where it is one that the row takes.
fn letter_cell(taken: bool, byte: u8) -> Result<u64, FieldFault>
    ensures { result ≡ cond taken (Ok byte) (Err FieldFault.Malformed) }
{
    if taken {
        Ok(u64::from(byte))
    } else {
        Err(FieldFault::Malformed)
    }
}

// Whether it is a status, read or to be written: S or a space.
pub fn is_status(letter: u64) -> bool
    ensures { result ≡ is_status letter }
{
    matches!(letter, 83 | 32)
}

#[tactic(auto, unfolding(crate::specs::Read::read_row))]
fn read_row(row: Row, field: &[u8]) -> Result<u64, FieldFault>
    ensures { result ≡ read_row row field.now }
{
    match row {
        Row::Key(_) => Ok(0),
        Row::MarketType(markets) => {
            let byte = wire::u8_at(field, 0);
            letter_cell(is_market(markets, u64::from(byte)), byte)
        }
        Row::Status => {
            let byte = wire::u8_at(field, 0);
            letter_cell(is_status(u64::from(byte)), byte)
        }
        Row::Price(_) => of_number(Price::read(field)),
        Row::Quantity(_) => of_number(Quantity::read(field)),
        Row::Turnover(_) => of_number(Turnover::read(field)),
        Row::Difference(_) => of_number(Difference::read(field)),
    }
}

// The rows in turn, each with the bytes behind those of the row before it. It knows no layout: rows are data.
fn read_rows(rows: &[Row], data: &[u8], cells: &mut [u64; MOST_ROWS]) -> Result<(), BadRow>
    requires { length rows.now ≤ most_rows }
    ensures { ReadsRows rows.now «data».now cells.old result cells.new }
{
    let mut at = 0;
    for (i, row) in rows.iter().enumerate() {
        let end = at + forms::width_of(*row).min(data.len() - at);
        let cell = read_row(*row, &data[at..end]).map_err(|fault| BadRow::of(fault, i))?;
        cells[i] = cell;
        at = end;
    }
    Ok(())
}

// The rows of that form, a cell each: those of the good rows in front of the first bad one are stored.
pub fn read_update(form: Form, data: &[u8], cells: &mut [u64; MOST_ROWS]) -> Result<(), BadRow>
    ensures { ReadsRows (rows_of form) «data».now cells.old result cells.new }
{
    read_rows(rows::rows_of(form), data, cells)
}
