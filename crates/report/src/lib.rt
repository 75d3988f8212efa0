// What the program `gaps` says: each line is written to a page.
#![tactic(auto)]

ghost use Rattle.std.specs.Prelude.{◌≤◌, length};

use lent::Lent;
use quotebox::{GapsListed, Refusal};
use std::io::{Result, Write};

// A start that is refused, by the refusal's number.
pub fn put_refused_start(page: &mut impl Write, refusal: Refusal) -> Result<()> {
    let [number, _, _, _] = quotebox::refusal_numbers(refusal);
    writeln!(page, "start refused {number}")
}

pub fn put_refused(page: &mut impl Write, batch: u64, refusal: Refusal) -> Result<()> {
    let [number, message, _, _] = quotebox::refusal_numbers(refusal);
    writeln!(page, "batch {batch} refused {number} message {message}")
}

// How many numbers are missing in runs, two cells each.
fn missing(runs: &[u32]) -> u64
    requires { length runs.now ≤ 128 }
{
    let (runs, _) = runs.as_chunks::<2>();
    let mut sum: u64 = 0;
    for [first, last] in runs {
        sum += last.wrapping_sub(*first) as u64 + 1;
    }
    sum
}

fn put_segment(page: &mut impl Write, letter: u8, highest: u32, runs: &[u32]) -> Result<()>
    requires { length runs.now ≤ 128 }
{
    let missing = missing(runs);
    page.write_all(&[letter])?;
    writeln!(page, " {highest} {missing}")?;
    console::put_runs(page, &[letter, b' ', b'g', b'a', b'p', b' '], runs, b"\n")
}

fn put_listed(page: &mut impl Write, lent: &Lent, letter: u8) -> Result<()> {
    let mut cells = [0u32; console::RUN_CELLS];
    match lent.list_gaps(letter, &mut cells) {
        Ok(GapsListed { highest, runs }) => put_segment(
            page,
            letter,
            highest,
            console::runs_in(&cells, runs),
        ),
        Err(_) => Ok(()),
    }
}

// The list: a heading, each segment in list order, and `end`.
pub fn put_list(page: &mut impl Write, lent: &Lent) -> Result<()> {
    let list = lent.list;
    writeln!(page, "segment highest missing")?;
    for segment in 0..files::segments(list) {
        put_listed(page, lent, files::letter_at(list, segment))?;
    }
    writeln!(page, "end")
}
