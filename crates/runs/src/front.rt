// The calls over numbers, on an array of runs of which so many are lent.
ghost use Rattle.std.specs.Prelude.{◌≤◌, length, take};
ghost use Rattle.pairs.specs.Lists.{lists};
ghost use Rattle.state.specs.Memory.{lends};
ghost use Rattle.batch.specs.Promises.{JudgedBatch, TookBatch};
ghost use Rattle.starting.specs.StartPromises.{StartedBox};
ghost use Rattle.listing.specs.ListPromises.{ListedRuns, WroteOffRun};
ghost use Rattle.reading.specs.Reads.{ReadRecord, ReadSpread};
ghost use Rattle.runs.specs.Promises.{StartedRuns, JudgedRuns, TookRuns, ListedGaps, WroteOffRuns, ReadRuns, ReadSpreadRuns};

use crate::refusal;
use copies::Run;
use layout::Level;
use quotebox::{GapsListed, Judged, Reading, Refusal, SpreadReading};

// A call's answer, and the runs that it leaves.
#[derive(Clone, Copy)]
pub(crate) struct With<A> {
    pub answer: A,
    pub runs: [Run; copies::MOST],
}

fn start_numbers(
    list: &[u8],
    spreads: &[u8],
    starts: &[u32],
    numbers: &mut [u32],
    lent: usize,
    records: &mut [u64],
) -> Result<(), Refusal>
    requires { lent ≤ length numbers.old }
    ensures { StartedBox (lends (lists list.now spreads.now) (take lent numbers.old) records.old) starts.now result (lends (lists list.now spreads.now) (take lent numbers.new) records.new) }
{
    quotebox::start(list, spreads, starts, &mut numbers[..lent], records)
}

pub(crate) fn start(
    list: &[u8],
    spreads: &[u8],
    starts: &[u32],
    runs: [Run; copies::MOST],
    lent: usize,
    records: &mut [u64],
) -> With<Result<(), Refusal>>
    ensures { StartedRuns (lists list.now spreads.now) starts.now (take lent runs) records.old result.answer (take lent result.runs) records.new }
{
    let count = lent.min(copies::MOST);
    let mut numbers = copies::flat(runs);
    let answer = start_numbers(list, spreads, starts, &mut numbers, 2 * count, records);
    With {
        answer: refusal::started(list, count, answer),
        runs: copies::paired(numbers),
    }
}

fn judge_numbers(
    list: &[u8],
    spreads: &[u8],
    numbers: &[u32],
    lent: usize,
    records: &[u64],
    batch: &[u8],
) -> Judged
    requires { lent ≤ length numbers.now }
    ensures { JudgedBatch (lends (lists list.now spreads.now) (take lent numbers.now) records.now) batch.now result }
{
    quotebox::judge(list, spreads, &numbers[..lent], records, batch)
}

pub(crate) fn judge(
    list: &[u8],
    spreads: &[u8],
    runs: [Run; copies::MOST],
    lent: usize,
    records: &[u64],
    batch: &[u8],
) -> Judged
    ensures { JudgedRuns (lists list.now spreads.now) (take lent runs) records.now batch.now result }
{
    let count = lent.min(copies::MOST);
    let numbers = copies::flat(runs);
    let answer = judge_numbers(list, spreads, &numbers, 2 * count, records, batch);
    refusal::judged(list, count, answer)
}

fn take_numbers(
    list: &[u8],
    spreads: &[u8],
    numbers: &mut [u32],
    lent: usize,
    records: &mut [u64],
    batch: &[u8],
) -> Judged
    requires { lent ≤ length numbers.old }
    ensures { TookBatch (lends (lists list.now spreads.now) (take lent numbers.old) records.old) batch.now result (lends (lists list.now spreads.now) (take lent numbers.new) records.new) }
{
    quotebox::take(list, spreads, &mut numbers[..lent], records, batch)
}

pub(crate) fn take(
    list: &[u8],
    spreads: &[u8],
    runs: [Run; copies::MOST],
    lent: usize,
    records: &mut [u64],
    batch: &[u8],
) -> With<Judged>
    ensures { TookRuns (lists list.now spreads.now) (take lent runs) records.old batch.now result.answer (take lent result.runs) records.new }
{
    let count = lent.min(copies::MOST);
    let mut numbers = copies::flat(runs);
    let answer = take_numbers(list, spreads, &mut numbers, 2 * count, records, batch);
    With {
        answer: refusal::judged(list, count, answer),
        runs: copies::paired(numbers),
    }
}

fn list_numbers(
    list: &[u8],
    spreads: &[u8],
    numbers: &[u32],
    lent: usize,
    records: &[u64],
    letter: u8,
    cells: &mut [u32],
) -> Result<GapsListed, Refusal>
    requires { lent ≤ length numbers.now }
    ensures { ListedRuns (lends (lists list.now spreads.now) (take lent numbers.now) records.now) letter cells.old result cells.new }
{
    quotebox::list_gaps(list, spreads, &numbers[..lent], records, letter, cells)
}

pub(crate) fn list_gaps(
    list: &[u8],
    spreads: &[u8],
    runs: [Run; copies::MOST],
    lent: usize,
    records: &[u64],
    letter: u8,
    cells: &mut [u32],
) -> Result<GapsListed, Refusal>
    ensures { ListedGaps (lists list.now spreads.now) (take lent runs) records.now letter cells.old result cells.new }
{
    let count = lent.min(copies::MOST);
    let numbers = copies::flat(runs);
    let answer = list_numbers(list, spreads, &numbers, 2 * count, records, letter, cells);
    refusal::listed(list, count, answer)
}

fn write_off_numbers(
    list: &[u8],
    spreads: &[u8],
    numbers: &mut [u32],
    lent: usize,
    records: &[u64],
    letter: u8,
) -> Result<quotebox::Run, Refusal>
    requires { lent ≤ length numbers.old }
    ensures { WroteOffRun (lends (lists list.now spreads.now) (take lent numbers.old) records.now) letter result (lends (lists list.now spreads.now) (take lent numbers.new) records.now) }
{
    quotebox::write_off(list, spreads, &mut numbers[..lent], records, letter)
}

pub(crate) fn write_off(
    list: &[u8],
    spreads: &[u8],
    runs: [Run; copies::MOST],
    lent: usize,
    records: &[u64],
    letter: u8,
) -> With<Result<quotebox::Run, Refusal>>
    ensures { WroteOffRuns (lists list.now spreads.now) (take lent runs) records.now letter result.answer (take lent result.runs) }
{
    let count = lent.min(copies::MOST);
    let mut numbers = copies::flat(runs);
    let answer = write_off_numbers(list, spreads, &mut numbers, 2 * count, records, letter);
    With {
        answer: refusal::written_off(list, count, answer),
        runs: copies::paired(numbers),
    }
}

fn read_numbers(
    list: &[u8],
    spreads: &[u8],
    numbers: &[u32],
    lent: usize,
    records: &[u64],
    letter: u8,
    key: &[u8; 39],
    level: Level,
) -> Reading
    requires { lent ≤ length numbers.now }
    ensures { ReadRecord (lends (lists list.now spreads.now) (take lent numbers.now) records.now) letter key.now level result }
{
    quotebox::read_record(list, spreads, &numbers[..lent], records, letter, key, level)
}

pub(crate) fn read_record(
    list: &[u8],
    spreads: &[u8],
    runs: [Run; copies::MOST],
    lent: usize,
    records: &[u64],
    letter: u8,
    key: &[u8; 39],
    level: Level,
) -> Reading
    ensures { ReadRuns (lists list.now spreads.now) (take lent runs) records.now letter key.now level result }
{
    let count = lent.min(copies::MOST);
    let numbers = copies::flat(runs);
    let reading = read_numbers(
        list,
        spreads,
        &numbers,
        2 * count,
        records,
        letter,
        key,
        level,
    );
    let answer = reading.answer;
    let quote = reading.quote;
    Reading {
        answer: refusal::recorded(list, count, answer),
        quote,
    }
}

fn read_spread_numbers(
    list: &[u8],
    spreads: &[u8],
    numbers: &[u32],
    lent: usize,
    records: &[u64],
    letter: u8,
    pair: &[u8; 78],
    level: Level,
) -> SpreadReading
    requires { lent ≤ length numbers.now }
    ensures { ReadSpread (lends (lists list.now spreads.now) (take lent numbers.now) records.now) letter pair.now level result }
{
    quotebox::read_spread(
        list,
        spreads,
        &numbers[..lent],
        records,
        letter,
        pair,
        level,
    )
}

pub(crate) fn read_spread(
    list: &[u8],
    spreads: &[u8],
    runs: [Run; copies::MOST],
    lent: usize,
    records: &[u64],
    letter: u8,
    pair: &[u8; 78],
    level: Level,
) -> SpreadReading
    ensures { ReadSpreadRuns (lists list.now spreads.now) (take lent runs) records.now letter pair.now level result }
{
    let count = lent.min(copies::MOST);
    let numbers = copies::flat(runs);
    let reading = read_spread_numbers(
        list,
        spreads,
        &numbers,
        2 * count,
        records,
        letter,
        pair,
        level,
    );
    let answer = reading.answer;
    let quote = reading.quote;
    SpreadReading {
        answer: refusal::recorded(list, count, answer),
        quote,
    }
}
