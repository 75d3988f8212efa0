// Document 01's program: starts at 1 with the file `contracts`, takes batches from standard input, and lists the gaps.
#![tactic(auto)]

mod take;

use console::Page;
use lent::{Lent, RUNS};
use quotebox::Refusal;
use runs::Run;
use std::io::{Read, Result, Write};

// The most keys of a segment.
const MOST_KEYS: usize = 64;

// The cells of the records of as many contracts as the program holds.
const RECORD_CELLS: usize = contracts::MOST_SEGMENTS * MOST_KEYS * slots::CONTRACT;

// The bytes of the longest spread list without pairs.
const NO_SPREADS: usize = files::NUMBER + files::ENTRY * contracts::MOST_SEGMENTS;

// The refusal of what the program's memory doesn't hold; of the cells wanted it says nothing.
const NO_ROOM: Refusal = Refusal::Memory(0);

// Whether a segment of the list has more keys than the program holds.
fn has_too_many(list: &[u8]) -> bool {
    (0..files::segments(list)).any(|segment| MOST_KEYS < files::count_at(list, segment))
}

// Every batch of standard input, and then the list.
fn start<R: Read, P: Print, const M: usize>(
    input: &mut R,
    page: &mut Page<'_, P, M>,
    list: &[u8],
    spreads: &[u8],
) -> Result<()> {
    let mut records = [0; RECORD_CELLS];
    let mut lent = Lent {
        list,
        spreads,
        rows: [Run { first: 0, last: 0 }; RUNS],
        records: &mut records,
    };
    match lent.start(&[1; contracts::MOST_SEGMENTS]) {
        Err(refusal) => report::put_refused_start(page, refusal),
        Ok(()) if has_too_many(list) => report::put_refused_start(page, NO_ROOM),
        Ok(()) => {
            take::take_all(input, page, &mut lent)?;
            report::put_list(page, &lent)
        }
    }
}

// Starts with no spreads: a list that has no spread list without pairs is refused for the same reason at start.
fn answer<R: Read, P: Print, const M: usize>(
    input: &mut R,
    page: &mut Page<'_, P, M>,
    list: &[u8],
) -> Result<()> {
    if console::MOST_LIST < list.len() {
        return report::put_refused_start(page, NO_ROOM);
    }
    let mut spreads = [0; NO_SPREADS];
    match quotebox::no_spreads(list, &mut spreads) {
        Err(refusal) => report::put_refused_start(page, refusal),
        Ok(size) => start(input, page, list, &spreads[..size.min(NO_SPREADS)]),
    }
}

fn main(rt: HostRuntime) -> Result<()> {
    let mut page: Page<HostRuntime, 4096> = Page::new(&rt);
    let mut file = [0; console::FILE_ROOM];
    let size = console::read_contracts(&rt, &mut file);
    answer(&mut rt.reader(), &mut page, &file[..size])?;
    page.flush()
}
