// The rows of an update, read and written.
use crate::leaves;
use layout::{BadRow, Form, MOST_ROWS};
use std::io::{Result, Write};

// The most bytes of an update's data that are shown.
const ROOM: usize = 4096;

// The form of a contract that a byte stands for: of D's and of F's one of each level.
fn form_of(byte: u8) -> Form {
    match byte {
        1 => Form::LevelOne,
        3 => Form::FutureOne,
        4 => Form::FutureTwo,
        _ => Form::LevelTwo,
    }
}

fn put_bad_row(page: &mut impl Write, bad: BadRow) -> Result<()> {
    match bad {
        BadRow::Field(row) => write!(page, "field {row}"),
        BadRow::Range(row) => write!(page, "range {row}"),
    }
}

fn put_cells(page: &mut impl Write, cells: &[u64], count: usize) -> Result<()> {
    write!(page, "good")?;
    for cell in cells.iter().take(count) {
        write!(page, " {cell}")?;
    }
    Ok(())
}

// A form's byte, and the data.
pub fn put_read(page: &mut impl Write, asked: &[u8]) -> Result<()> {
    let Some((byte, text)) = asked.split_first() else {
        return Ok(());
    };
    let form = form_of(*byte);
    let mut cells = [0; MOST_ROWS];
    match layout::read_update(form, text, &mut cells) {
        Ok(()) => put_cells(page, &cells, rows::count_of(form)),
        Err(bad) => put_bad_row(page, bad),
    }
}

fn values_in(asked: &[u8]) -> [u64; MOST_ROWS] {
    let mut values = [0; MOST_ROWS];
    console::cells_at(asked, 40, &mut values);
    values
}

// A form's byte, a key of 39 bytes, and a value of eight for each row.
pub fn put_written(page: &mut impl Write, asked: &[u8]) -> Result<()> {
    if asked.len() < 40 {
        return Ok(());
    }
    let form = form_of(asked[0]);
    let mut room = [0; ROOM];
    let Some(data) = room.get_mut(..layout::data_length(form)) else {
        return Ok(());
    };
    match compose::write_update(form, &asked[1..40], &values_in(asked), data) {
        Ok(()) => leaves::put_bytes(page, data),
        Err(bad) => put_bad_row(page, bad),
    }
}
