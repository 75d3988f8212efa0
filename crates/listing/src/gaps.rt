// A segment's gaps: listing them, and writing off the lowest run.
ghost use Rattle.pairs.specs.Lists.{lists};
ghost use Rattle.state.specs.Memory.{lends};
ghost use Rattle.listing.specs.ListPromises.{ListedRuns, WroteOffRun};

use sequence::{GapsListed, Run};
use state::Refusal;

pub fn list_gaps(
    list: &[u8],
    spreads: &[u8],
    rows: &[u32],
    records: &[u64],
    letter: u8,
    cells: &mut [u32],
) -> Result<GapsListed, Refusal>
    ensures { ListedRuns (lends (lists list.now spreads.now) rows.now records.now) letter cells.old result cells.new }
{
    let segment = state::check_segment(list, spreads, rows, records, letter)?;
    let row = state::row_of(rows, segment);
    let gaps = sequence::list(&row, cells)?;
    Ok(gaps)
}

pub fn write_off(
    list: &[u8],
    spreads: &[u8],
    rows: &mut [u32],
    records: &[u64],
    letter: u8,
) -> Result<Run, Refusal>
    ensures { WroteOffRun (lends (lists list.now spreads.now) rows.old records.now) letter result (lends (lists list.now spreads.now) rows.new records.now) }
{
    let segment = state::check_segment(list, spreads, rows, records, letter)?;
    let mut row = state::row_of(rows, segment);
    let run = sequence::write_off(&mut row).ok_or(Refusal::NoGap)?;
    state::put_row(rows, segment, &row);
    Ok(run)
}
