// The public calls: the runs are copied out of the lent rows, the call over numbers is made, and they are copied back.
ghost use Rattle.pairs.specs.Lists.{lists};
ghost use Rattle.runs.specs.Promises.{StartedRuns, JudgedRuns, TookRuns, ListedGaps, WroteOffRuns, ReadRuns, ReadSpreadRuns};

use crate::front;
use copies::Run;
use layout::Level;
use quotebox::{GapsListed, Judged, Reading, Refusal, SpreadReading};

pub fn start(
    list: &[u8],
    spreads: &[u8],
    starts: &[u32],
    rows: &mut [Run],
    records: &mut [u64],
) -> Result<(), Refusal>
    ensures { StartedRuns (lists list.now spreads.now) starts.now rows.old records.old result rows.new records.new }
{
    let runs = copies::out(rows);
    let began = front::start(list, spreads, starts, runs, rows.len(), records);
    copies::back(began.runs, rows);
    began.answer
}

pub fn judge(list: &[u8], spreads: &[u8], rows: &[Run], records: &[u64], batch: &[u8]) -> Judged
    ensures { JudgedRuns (lists list.now spreads.now) rows.now records.now batch.now result }
{
    front::judge(list, spreads, copies::out(rows), rows.len(), records, batch)
}

pub fn take(
    list: &[u8],
    spreads: &[u8],
    rows: &mut [Run],
    records: &mut [u64],
    batch: &[u8],
) -> Judged
    ensures { TookRuns (lists list.now spreads.now) rows.old records.old batch.now result rows.new records.new }
{
    let runs = copies::out(rows);
    let took = front::take(list, spreads, runs, rows.len(), records, batch);
    copies::back(took.runs, rows);
    took.answer
}

pub fn list_gaps(
    list: &[u8],
    spreads: &[u8],
    rows: &[Run],
    records: &[u64],
    letter: u8,
    cells: &mut [u32],
) -> Result<GapsListed, Refusal>
    ensures { ListedGaps (lists list.now spreads.now) rows.now records.now letter cells.old result cells.new }
{
    front::list_gaps(
        list,
        spreads,
        copies::out(rows),
        rows.len(),
        records,
        letter,
        cells,
    )
}

pub fn write_off(
    list: &[u8],
    spreads: &[u8],
    rows: &mut [Run],
    records: &[u64],
    letter: u8,
) -> Result<quotebox::Run, Refusal>
    ensures { WroteOffRuns (lists list.now spreads.now) rows.old records.now letter result rows.new }
{
    let runs = copies::out(rows);
    let wrote = front::write_off(list, spreads, runs, rows.len(), records, letter);
    copies::back(wrote.runs, rows);
    wrote.answer
}

pub fn read_record(
    list: &[u8],
    spreads: &[u8],
    rows: &[Run],
    records: &[u64],
    letter: u8,
    key: &[u8; 39],
    level: Level,
) -> Reading
    ensures { ReadRuns (lists list.now spreads.now) rows.now records.now letter key.now level result }
{
    front::read_record(
        list,
        spreads,
        copies::out(rows),
        rows.len(),
        records,
        letter,
        key,
        level,
    )
}

pub fn read_spread(
    list: &[u8],
    spreads: &[u8],
    rows: &[Run],
    records: &[u64],
    letter: u8,
    pair: &[u8; 78],
    level: Level,
) -> SpreadReading
    ensures { ReadSpreadRuns (lists list.now spreads.now) rows.now records.now letter pair.now level result }
{
    front::read_spread(
        list,
        spreads,
        copies::out(rows),
        rows.len(),
        records,
        letter,
        pair,
        level,
    )
}
