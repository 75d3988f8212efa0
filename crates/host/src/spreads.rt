// A function for each public call of pairs. None has a `requires`: they stand any contents.
ghost use Rattle.pairs.specs.Lists.{lists};
ghost use Rattle.forms.specs.declared.rows.Level.TheVariants.{One, Two};
ghost use Rattle.state.specs.Memory.{lends};
ghost use Rattle.host.specs.Promises.{HostReadSpread, HostWroteSpread, HostPutNoSpreads};

use layout::{Level, PAIR_BYTES};
use quotebox::Code;

fn read_spread(
    list: &[u8],
    spreads: &[u8],
    rows: &[u32],
    records: &[u64],
    letter: u8,
    pair: &[u8; PAIR_BYTES],
    level: Level,
    values: &mut [u64; values::MOST],
    answer: &mut [u64; 4],
) -> u32
    ensures { HostReadSpread (lends (lists list.now spreads.now) rows.now records.now) letter pair.now level values.old result values.new answer.new }
{
    let reading = quotebox::read_spread(list, spreads, rows, records, letter, pair, level);
    let recorded = reading.answer;
    let quote = reading.quote;
    told::show_spread(recorded, level, quote, values);
    told::tell(told::of_recorded(recorded), answer)
}

// Kept: a function for each level, as the C interface names them.
pub fn quotebox_read_spread1(
    list: &[u8],
    spreads: &[u8],
    rows: &[u32],
    records: &[u64],
    letter: u8,
    pair: &[u8; PAIR_BYTES],
    values: &mut [u64; values::MOST],
    answer: &mut [u64; 4],
) -> u32
    ensures { HostReadSpread (lends (lists list.now spreads.now) rows.now records.now) letter pair.now One values.old result values.new answer.new }
{
    read_spread(
        list,
        spreads,
        rows,
        records,
        letter,
        pair,
        Level::One,
        values,
        answer,
    )
}

pub fn quotebox_read_spread2(
    list: &[u8],
    spreads: &[u8],
    rows: &[u32],
    records: &[u64],
    letter: u8,
    pair: &[u8; PAIR_BYTES],
    values: &mut [u64; values::MOST],
    answer: &mut [u64; 4],
) -> u32
    ensures { HostReadSpread (lends (lists list.now spreads.now) rows.now records.now) letter pair.now Two values.old result values.new answer.new }
{
    read_spread(
        list,
        spreads,
        rows,
        records,
        letter,
        pair,
        Level::Two,
        values,
        answer,
    )
}

fn write_spread(
    code: &[u8; 2],
    level: Level,
    number: u32,
    pair: &[u8; PAIR_BYTES],
    values: &[u64; values::MOST],
    out: &mut [u8],
    answer: &mut [u64; 4],
) -> u32
    ensures { HostWroteSpread code.now level number pair.now values.now out.old result out.new answer.new }
{
    let quote = values::spread_in(level, values);
    let written = quotebox::write_spread(Code(code[0], code[1]), level, number, pair, quote, out);
    told::tell(told::of_written(written), answer)
}

// Kept: a function for each level, as the C interface names them.
pub fn quotebox_write_spread1(
    code: &[u8; 2],
    number: u32,
    pair: &[u8; PAIR_BYTES],
    values: &[u64; values::MOST],
    out: &mut [u8],
    answer: &mut [u64; 4],
) -> u32
    ensures { HostWroteSpread code.now One number pair.now values.now out.old result out.new answer.new }
{
    write_spread(code, Level::One, number, pair, values, out, answer)
}

pub fn quotebox_write_spread2(
    code: &[u8; 2],
    number: u32,
    pair: &[u8; PAIR_BYTES],
    values: &[u64; values::MOST],
    out: &mut [u8],
    answer: &mut [u64; 4],
) -> u32
    ensures { HostWroteSpread code.now Two number pair.now values.now out.old result out.new answer.new }
{
    write_spread(code, Level::Two, number, pair, values, out, answer)
}

pub fn quotebox_no_spreads(list: &[u8], out: &mut [u8], answer: &mut [u64; 4]) -> u32
    ensures { HostPutNoSpreads list.now out.old result out.new answer.new }
{
    let written = quotebox::no_spreads(list, out);
    told::tell(told::of_written(written), answer)
}
