// A function for each public call but those of pairs. None has a `requires`: they stand any contents.
ghost use Rattle.forms.specs.declared.rows.Level.TheVariants.{One, Two};
ghost use Rattle.pairs.specs.Lists.{lists};
ghost use Rattle.state.specs.Memory.{lends};
ghost use Rattle.host.specs.Promises.{HostStarted, HostJudged, HostTook, HostListed, HostWroteOff, HostRead, HostWrote};

use layout::{KEY_BYTES, Level};
use quotebox::Code;

pub fn quotebox_start(
    list: &[u8],
    spreads: &[u8],
    starts: &[u32],
    rows: &mut [u32],
    records: &mut [u64],
    answer: &mut [u64; 4],
) -> u32
    ensures { HostStarted (lends (lists list.now spreads.now) rows.old records.old) starts.now result (lends (lists list.now spreads.now) rows.new records.new) answer.new }
{
    let started = quotebox::start(list, spreads, starts, rows, records);
    told::tell(told::of_started(started), answer)
}

pub fn quotebox_judge(
    list: &[u8],
    spreads: &[u8],
    rows: &[u32],
    records: &[u64],
    batch: &[u8],
    answer: &mut [u64; 4],
) -> u32
    ensures { HostJudged (lends (lists list.now spreads.now) rows.now records.now) batch.now result answer.new }
{
    let judged = quotebox::judge(list, spreads, rows, records, batch);
    told::tell(told::of_judged(judged), answer)
}

pub fn quotebox_take(
    list: &[u8],
    spreads: &[u8],
    rows: &mut [u32],
    records: &mut [u64],
    batch: &[u8],
    answer: &mut [u64; 4],
) -> u32
    ensures { HostTook (lends (lists list.now spreads.now) rows.old records.old) batch.now result (lends (lists list.now spreads.now) rows.new records.new) answer.new }
{
    let judged = quotebox::take(list, spreads, rows, records, batch);
    told::tell(told::of_judged(judged), answer)
}

pub fn quotebox_list_gaps(
    list: &[u8],
    spreads: &[u8],
    rows: &[u32],
    records: &[u64],
    letter: u8,
    cells: &mut [u32],
    answer: &mut [u64; 4],
) -> u32
    ensures { HostListed (lends (lists list.now spreads.now) rows.now records.now) letter cells.old result cells.new answer.new }
{
    let listed = quotebox::list_gaps(list, spreads, rows, records, letter, cells);
    told::tell(told::of_listed(listed), answer)
}

pub fn quotebox_write_off(
    list: &[u8],
    spreads: &[u8],
    rows: &mut [u32],
    records: &[u64],
    letter: u8,
    answer: &mut [u64; 4],
) -> u32
    ensures { HostWroteOff (lends (lists list.now spreads.now) rows.old records.now) letter result (lends (lists list.now spreads.now) rows.new records.now) answer.new }
{
    let written_off = quotebox::write_off(list, spreads, rows, records, letter);
    told::tell(told::of_written_off(written_off), answer)
}

fn read(
    list: &[u8],
    spreads: &[u8],
    rows: &[u32],
    records: &[u64],
    letter: u8,
    key: &[u8; KEY_BYTES],
    level: Level,
    values: &mut [u64; values::MOST],
    answer: &mut [u64; 4],
) -> u32
    ensures { HostRead (lends (lists list.now spreads.now) rows.now records.now) letter key.now level values.old result values.new answer.new }
{
    let reading = quotebox::read_record(list, spreads, rows, records, letter, key, level);
    let recorded = reading.answer;
    let quote = reading.quote;
    told::show(recorded, level, quote, values);
    told::tell(told::of_recorded(recorded), answer)
}

// Kept: a function for each level, as the C interface names them.
pub fn quotebox_read_level1(
    list: &[u8],
    spreads: &[u8],
    rows: &[u32],
    records: &[u64],
    letter: u8,
    key: &[u8; KEY_BYTES],
    values: &mut [u64; values::MOST],
    answer: &mut [u64; 4],
) -> u32
    ensures { HostRead (lends (lists list.now spreads.now) rows.now records.now) letter key.now One values.old result values.new answer.new }
{
    read(
        list,
        spreads,
        rows,
        records,
        letter,
        key,
        Level::One,
        values,
        answer,
    )
}

pub fn quotebox_read_level2(
    list: &[u8],
    spreads: &[u8],
    rows: &[u32],
    records: &[u64],
    letter: u8,
    key: &[u8; KEY_BYTES],
    values: &mut [u64; values::MOST],
    answer: &mut [u64; 4],
) -> u32
    ensures { HostRead (lends (lists list.now spreads.now) rows.now records.now) letter key.now Two values.old result values.new answer.new }
{
    read(
        list,
        spreads,
        rows,
        records,
        letter,
        key,
        Level::Two,
        values,
        answer,
    )
}

fn write(
    code: &[u8; 2],
    level: Level,
    number: u32,
    key: &[u8; KEY_BYTES],
    values: &[u64; values::MOST],
    out: &mut [u8],
    answer: &mut [u64; 4],
) -> u32
    ensures { HostWrote code.now level number key.now values.now out.old result out.new answer.new }
{
    let quote = values::quote_in(level, values);
    let written = quotebox::write_message(Code(code[0], code[1]), level, number, key, quote, out);
    told::tell(told::of_written(written), answer)
}

// Kept: a function for each level, as the C interface names them.
pub fn quotebox_write_level1(
    code: &[u8; 2],
    number: u32,
    key: &[u8; KEY_BYTES],
    values: &[u64; values::MOST],
    out: &mut [u8],
    answer: &mut [u64; 4],
) -> u32
    ensures { HostWrote code.now One number key.now values.now out.old result out.new answer.new }
{
    write(code, Level::One, number, key, values, out, answer)
}

pub fn quotebox_write_level2(
    code: &[u8; 2],
    number: u32,
    key: &[u8; KEY_BYTES],
    values: &[u64; values::MOST],
    out: &mut [u8],
    answer: &mut [u64; 4],
) -> u32
    ensures { HostWrote code.now Two number key.now values.now out.old result out.new answer.new }
{
    write(code, Level::Two, number, key, values, out, answer)
}
