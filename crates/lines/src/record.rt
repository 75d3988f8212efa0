// A record of a contract or a pair: its number, a contract's session, and each row behind the key.
use crate::put_refused;
use forms::{Item, Level, Row, Session};
use state::Recorded;
use std::io::{Result, Write};

// The minus of a price difference's value; the amount stands beside it.
const MINUS: u64 = 0x8000_0000_0000_0000;

// `-` for none, and before the amount of a difference that is below zero.
fn put_value(page: &mut impl Write, row: Row, value: u64) -> Result<()> {
    match row {
        _ if value == values::NONE => write!(page, " -"),
        Row::Difference(_) if MINUS <= value => write!(page, " -{}", value - MINUS),
        _ => write!(page, " {value}"),
    }
}

// The rows behind the key, and the value of each.
fn put_rows(
    page: &mut impl Write,
    item: Item,
    level: Level,
    values: &[u64; values::MOST],
) -> Result<()> {
    let rows = rows::rows_of(forms::record_form(item, level)).iter();
    let behind = rows.skip(forms::key_rows_of(item));
    let values = values.iter().skip(slots::cells_in_front(item));
    for (row, value) in behind.zip(values) {
        put_value(page, *row, *value)?;
    }
    Ok(())
}

fn name_of(item: Item) -> &'static str {
    match item {
        Item::Contract => "record",
        Item::Pair => "spread",
    }
}

// The number, and of a contract the session.
fn put_front(page: &mut impl Write, item: Item, number: u64, session: Session) -> Result<()> {
    match item {
        Item::Contract => {
            let session = layout::session_cell(session);
            write!(page, "record ok {number} {session}")
        }
        Item::Pair => write!(page, "spread ok {number}"),
    }
}

// The values are those of the record.
pub fn put_recorded(
    page: &mut impl Write,
    item: Item,
    level: Level,
    answer: Recorded,
    values: &[u64; values::MOST],
) -> Result<()> {
    let name = name_of(item);
    match answer {
        Recorded::Record(number, session) => {
            put_front(page, item, number, session)?;
            put_rows(page, item, level, values)?;
            writeln!(page, "")
        }
        Recorded::NoRecord => writeln!(page, "{name} none"),
        Recorded::Refused(refusal) => put_refused(page, name, refusal),
    }
}
