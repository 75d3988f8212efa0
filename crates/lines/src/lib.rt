// What each call answered, as the test bench prints it: a line, written to a page.
#![tactic(auto)]

mod message;
mod record;

pub use message::put_written;
pub use record::put_recorded;
use state::{GapsListed, Judged, Refusal, Run};
use std::io;
use std::io::Write;

// `NAME refused`, the number, message, row and cells wanted.
pub(crate) fn put_refused(page: &mut impl Write, name: &str, refusal: Refusal) -> io::Result<()> {
    let [number, message, row, cells] = state::refusal_numbers(refusal);
    writeln!(page, "{name} refused {number} {message} {row} {cells}")
}

pub fn put_started(page: &mut impl Write, answer: Result<(), Refusal>) -> io::Result<()> {
    match answer {
        Ok(()) => writeln!(page, "start ok"),
        Err(refusal) => put_refused(page, "start", refusal),
    }
}

// `NAME ok` or `NAME refused`, the numbers of either, and how many keys were compared.
pub fn put_judged(page: &mut impl Write, name: &[u8], answer: Judged) -> io::Result<()> {
    page.write_all(name)?;
    match answer {
        Judged::Accepted(taken, old, heartbeats, compared) => {
            writeln!(page, " ok {taken} {old} {heartbeats} {compared}")
        }
        Judged::Refused(refusal, compared) => {
            let [number, message, row, cells] = state::refusal_numbers(refusal);
            writeln!(page, " refused {number} {message} {row} {cells} {compared}")
        }
    }
}

// Highest and each run, two cells.
fn put_runs(page: &mut impl Write, highest: u32, runs: &[u32]) -> io::Result<()> {
    let count = runs.len() / 2;
    write!(page, "gaps ok {highest} {count}")?;
    console::put_runs(page, b" ", runs, b"")?;
    writeln!(page, "")
}

// The cells are those that the runs were put in.
pub fn put_listed(
    page: &mut impl Write,
    answer: Result<GapsListed, Refusal>,
    cells: &[u32],
) -> io::Result<()> {
    match answer {
        Ok(GapsListed { highest, runs }) => put_runs(page, highest, console::runs_in(cells, runs)),
        Err(refusal) => put_refused(page, "gaps", refusal),
    }
}

pub fn put_off(page: &mut impl Write, answer: Result<Run, Refusal>) -> io::Result<()> {
    match answer {
        Ok(Run { first, last }) => writeln!(page, "off ok {first} {last}"),
        Err(refusal) => put_refused(page, "off", refusal),
    }
}
