// A gap row that numbers come to.
use sequence::CELLS;
use std::io::{Result, Write};
use taking::Taken;

pub fn put_start(page: &mut impl Write, row: &mut [u32; CELLS], number: u32) -> Result<()> {
    sequence::start(row, number);
    write!(page, "started")
}

pub fn put_taken(page: &mut impl Write, row: &mut [u32; CELLS], number: u32) -> Result<()> {
    if !sequence::sound(row) {
        return Ok(());
    }
    match taking::take(row, number) {
        Ok(Taken::Taken) => write!(page, "taken"),
        Ok(Taken::Old) => write!(page, "old"),
        Err(_) => write!(page, "full"),
    }
}

pub fn put_off(page: &mut impl Write, row: &mut [u32; CELLS]) -> Result<()> {
    match sequence::write_off(row) {
        Some(run) => write!(page, "off {} {}", run.first, run.last),
        None => write!(page, "no gap"),
    }
}

fn put_found(page: &mut impl Write, highest: u32, count: usize, cells: &[u32]) -> Result<()> {
    write!(page, " highest {highest} runs {count}")?;
    console::put_runs(page, b" ", console::runs_in(cells, count), b"")
}

pub fn put_gaps(page: &mut impl Write, row: &[u32; CELLS]) -> Result<()> {
    let mut cells = [0; console::RUN_CELLS];
    write!(page, "sound {}", sequence::sound(row))?;
    match sequence::list(row, &mut cells) {
        Ok(gaps) => put_found(page, gaps.highest, gaps.runs, &cells),
        Err(_) => write!(page, " short"),
    }
}

// A row handed back, big endian.
pub fn put_back(page: &mut impl Write, asked: &[u8]) -> Result<()> {
    let mut row = [0; CELLS];
    console::cells_at(asked, 0, &mut row);
    write!(page, "sound {}", sequence::sound(&row))
}
