// Answers what the tests ask of the parts of the box, a line each. What is asked: a byte for the kind, two for the size, and so
// many bytes. See tests/parts.rs.
#![tactic(auto)]

mod gaps;
mod leaves;
mod lists;
mod updates;

ghost use Rattle.std.specs.Prelude.{◌≤◌, IfOk, IfSome, length};

use amount::{Amount, Difference, Price, Quantity, Turnover};
use console::{Page, Room};
use sequence::CELLS;
use std::io::{Read, Result, Write};

fn answer(page: &mut impl Write, kind: u8, asked: &[u8], row: &mut [u32; CELLS]) -> Result<()> {
    // Kept: a letter stands once, in this match, where a table of closures would have a row for it and a search.
    match kind {
        b'C' => leaves::put_sum(page, asked),
        b'P' => leaves::put_number(page, Price::read(asked)),
        b'D' => leaves::put_number(page, Difference::read(asked)),
        b'Q' => leaves::put_number(page, Quantity::read(asked)),
        b'T' => leaves::put_number(page, Turnover::read(asked)),
        b'L' => lists::put_list(page, asked),
        b'K' => lists::put_key(page, asked, files::CONTRACTS),
        b'V' => lists::put_key(page, asked, pairs::PAIRS),
        b'X' => lists::put_spreads(page, asked),
        b'Z' => lists::put_no_spreads(page, asked),
        b'S' => gaps::put_start(page, row, wire::u32_at(asked, 0)),
        b'N' => gaps::put_taken(page, row, wire::u32_at(asked, 0)),
        b'O' => gaps::put_off(page, row),
        b'G' => gaps::put_gaps(page, row),
        b'B' => gaps::put_back(page, asked),
        b'U' => updates::put_read(page, asked),
        b'W' => updates::put_written(page, asked),
        _ => leaves::put_text(page, kind, asked),
    }?;
    writeln!(page, "")
}

// The kind of the next question, and its size: all its bytes are yet to be used. None where the input ends.
fn next<R: Read, P: Print, const N: usize, const M: usize>(
    input: &mut R,
    room: &mut Room<N>,
    page: &mut Page<'_, P, M>,
) -> Result<Option<(u8, usize)>>
    ensures { IfOk result (λ next. IfSome next (λ question. question.1 ≤ length room.new)) }
{
    room.fill_beside(input, page, 3)?;
    let head = room.unread();
    if head.len() < 3 {
        return Ok(None);
    }
    let kind = head[0];
    let size = wire::u16_at(head, 1) as usize;
    room.consume(3);
    room.fill_beside(input, page, size)?;
    if room.unread().len() < size {
        return Ok(None);
    }
    Ok(Some((kind, size)))
}

// Every question. A proved loop has to end, so the questions are counted, up to a number that no run reaches.
fn run<R: Read, P: Print, const M: usize>(input: &mut R, page: &mut Page<'_, P, M>) -> Result<()> {
    let mut room: Room<65536> = Room::new();
    let mut row = [0; CELLS];
    for _ in 0..u64::MAX {
        let Some((kind, size)) = next(input, &mut room, page)? else {
            break;
        };
        answer(page, kind, &room.unread()[..size], &mut row)?;
        room.consume(size);
    }
    Ok(())
}

fn main(rt: HostRuntime) -> Result<()> {
    let mut page: Page<HostRuntime, 4096> = Page::new(&rt);
    run(&mut rt.reader(), &mut page)?;
    writeln!(page, "end")?;
    page.flush()
}
