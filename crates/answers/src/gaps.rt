// The gaps, listed and written off.
ghost use Rattle.std.specs.Prelude.{◌≡◌};
ghost use Rattle.answers.specs.Room.{SameRoom};

use crate::Lent;
use std::io::{Result, Write};

// Of the cells for runs as many are lent as the command tells.
pub fn list(page: &mut impl Write, bytes: &[u8], lent: &Lent) -> Result<()> {
    let mut cells = [0u32; console::RUN_CELLS];
    let letter = wire::u8_at(bytes, 1);
    let told = wire::u16_at(bytes, 2) as usize;
    let room = &mut cells[..told.min(console::RUN_CELLS)];
    let listed = quotebox::list_gaps(
        lent.list,
        lent.spreads,
        lent.rows,
        lent.records,
        letter,
        room,
    );
    lines::put_listed(page, listed, &cells)
}

pub fn off(page: &mut impl Write, bytes: &[u8], lent: &mut Lent) -> Result<()>
    ensures room { SameRoom lent.old lent.new }
    ensures records { lent.new.records.now ≡ lent.old.records.now }
{
    let letter = wire::u8_at(bytes, 1);
    let list = lent.list;
    let spreads = lent.spreads;
    let rows = &mut *lent.rows;
    let records = &mut *lent.records;
    let off = quotebox::write_off(list, spreads, rows, records, letter);
    lines::put_off(page, off)
}
