// A function for each public call but those of pairs, which is the one of crate `host`. None has a `requires`: they stand any contents.
// Kept: each with its slices and arrays one by one, as the C interface has them.
ghost use Rattle.forms.specs.declared.rows.Level.TheVariants.{One, Two};
ghost use Rattle.pairs.specs.Lists.{lists};
ghost use Rattle.state.specs.Memory.{lends};
ghost use Rattle.host.specs.Promises.{HostStarted, HostJudged, HostTook, HostListed, HostWroteOff, HostRead, HostWrote};

use layout::KEY_BYTES;

#[unsafe(no_mangle)]
pub extern "C" fn quotebox_start(
    list: &[u8],
    spreads: &[u8],
    starts: &[u32],
    rows: &mut [u32],
    records: &mut [u64],
    answer: &mut [u64; 4],
) -> u32
    ensures { HostStarted (lends (lists list.now spreads.now) rows.old records.old) starts.now result (lends (lists list.now spreads.now) rows.new records.new) answer.new }
{
    host::quotebox_start(list, spreads, starts, rows, records, answer)
}

#[unsafe(no_mangle)]
pub extern "C" fn quotebox_judge(
    list: &[u8],
    spreads: &[u8],
    rows: &[u32],
    records: &[u64],
    batch: &[u8],
    answer: &mut [u64; 4],
) -> u32
    ensures { HostJudged (lends (lists list.now spreads.now) rows.now records.now) batch.now result answer.new }
{
    host::quotebox_judge(list, spreads, rows, records, batch, answer)
}

#[unsafe(no_mangle)]
pub extern "C" fn quotebox_take(
    list: &[u8],
    spreads: &[u8],
    rows: &mut [u32],
    records: &mut [u64],
    batch: &[u8],
    answer: &mut [u64; 4],
) -> u32
    ensures { HostTook (lends (lists list.now spreads.now) rows.old records.old) batch.now result (lends (lists list.now spreads.now) rows.new records.new) answer.new }
{
    host::quotebox_take(list, spreads, rows, records, batch, answer)
}

#[unsafe(no_mangle)]
pub extern "C" fn quotebox_list_gaps(
    list: &[u8],
    spreads: &[u8],
    rows: &[u32],
    records: &[u64],
    letter: u8,
    cells: &mut [u32],
    answer: &mut [u64; 4],
) -> u32
    ensures { HostListed (lends (lists list.now spreads.now) rows.now records.now) letter cells.old result cells.new answer.new }
{
    host::quotebox_list_gaps(list, spreads, rows, records, letter, cells, answer)
}

#[unsafe(no_mangle)]
pub extern "C" fn quotebox_write_off(
    list: &[u8],
    spreads: &[u8],
    rows: &mut [u32],
    records: &[u64],
    letter: u8,
    answer: &mut [u64; 4],
) -> u32
    ensures { HostWroteOff (lends (lists list.now spreads.now) rows.old records.now) letter result (lends (lists list.now spreads.now) rows.new records.now) answer.new }
{
    host::quotebox_write_off(list, spreads, rows, records, letter, answer)
}

#[unsafe(no_mangle)]
pub extern "C" fn quotebox_read_level1(
    list: &[u8],
    spreads: &[u8],
    rows: &[u32],
    records: &[u64],
    letter: u8,
    key: &[u8; KEY_BYTES],
    values: &mut [u64; values::MOST],
    answer: &mut [u64; 4],
) -> u32
    ensures { HostRead (lends (lists list.now spreads.now) rows.now records.now) letter key.now One values.old result values.new answer.new }
{
    host::quotebox_read_level1(list, spreads, rows, records, letter, key, values, answer)
}

#[unsafe(no_mangle)]
pub extern "C" fn quotebox_read_level2(
    list: &[u8],
    spreads: &[u8],
    rows: &[u32],
    records: &[u64],
    letter: u8,
    key: &[u8; KEY_BYTES],
    values: &mut [u64; values::MOST],
    answer: &mut [u64; 4],
) -> u32
    ensures { HostRead (lends (lists list.now spreads.now) rows.now records.now) letter key.now Two values.old result values.new answer.new }
{
    host::quotebox_read_level2(list, spreads, rows, records, letter, key, values, answer)
}

#[unsafe(no_mangle)]
pub extern "C" fn quotebox_write_level1(
    code: &[u8; 2],
    number: u32,
    key: &[u8; KEY_BYTES],
    values: &[u64; values::MOST],
    out: &mut [u8],
    answer: &mut [u64; 4],
) -> u32
    ensures { HostWrote code.now One number key.now values.now out.old result out.new answer.new }
{
    host::quotebox_write_level1(code, number, key, values, out, answer)
}

#[unsafe(no_mangle)]
pub extern "C" fn quotebox_write_level2(
    code: &[u8; 2],
    number: u32,
    key: &[u8; KEY_BYTES],
    values: &[u64; values::MOST],
    out: &mut [u8],
    answer: &mut [u64; 4],
) -> u32
    ensures { HostWrote code.now Two number key.now values.now out.old result out.new answer.new }
{
    host::quotebox_write_level2(code, number, key, values, out, answer)
}
