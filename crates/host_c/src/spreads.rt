// A function for each public call of pairs, which is the one of crate `host`. None has a `requires`: they stand any contents.
// Kept: each with its slices and arrays one by one, as the C interface has them.
ghost use Rattle.pairs.specs.Lists.{lists};
ghost use Rattle.forms.specs.declared.rows.Level.TheVariants.{One, Two};
ghost use Rattle.state.specs.Memory.{lends};
ghost use Rattle.host.specs.Promises.{HostReadSpread, HostWroteSpread, HostPutNoSpreads};

use layout::PAIR_BYTES;

#[unsafe(no_mangle)]
pub extern "C" fn quotebox_read_spread1(
    list: &[u8],
    spreads: &[u8],
    rows: &[u32],
    records: &[u64],
    letter: u8,
    pair: &[u8; PAIR_BYTES],
    values: &mut [u64; values::MOST],
    answer: &mut [u64; 4],
) -> u32
    ensures { HostReadSpread (lends (lists list.now spreads.now) rows.now records.now) letter pair.now One values.old result values.new answer.new }
{
    host::quotebox_read_spread1(list, spreads, rows, records, letter, pair, values, answer)
}

#[unsafe(no_mangle)]
pub extern "C" fn quotebox_read_spread2(
    list: &[u8],
    spreads: &[u8],
    rows: &[u32],
    records: &[u64],
    letter: u8,
    pair: &[u8; PAIR_BYTES],
    values: &mut [u64; values::MOST],
    answer: &mut [u64; 4],
) -> u32
    ensures { HostReadSpread (lends (lists list.now spreads.now) rows.now records.now) letter pair.now Two values.old result values.new answer.new }
{
    host::quotebox_read_spread2(list, spreads, rows, records, letter, pair, values, answer)
}

#[unsafe(no_mangle)]
pub extern "C" fn quotebox_write_spread1(
    code: &[u8; 2],
    number: u32,
    pair: &[u8; PAIR_BYTES],
    values: &[u64; values::MOST],
    out: &mut [u8],
    answer: &mut [u64; 4],
) -> u32
    ensures { HostWroteSpread code.now One number pair.now values.now out.old result out.new answer.new }
{
    host::quotebox_write_spread1(code, number, pair, values, out, answer)
}

#[unsafe(no_mangle)]
pub extern "C" fn quotebox_write_spread2(
    code: &[u8; 2],
    number: u32,
    pair: &[u8; PAIR_BYTES],
    values: &[u64; values::MOST],
    out: &mut [u8],
    answer: &mut [u64; 4],
) -> u32
    ensures { HostWroteSpread code.now Two number pair.now values.now out.old result out.new answer.new }
{
    host::quotebox_write_spread2(code, number, pair, values, out, answer)
}

#[unsafe(no_mangle)]
pub extern "C" fn quotebox_no_spreads(list: &[u8], out: &mut [u8], answer: &mut [u64; 4]) -> u32
    ensures { HostPutNoSpreads list.now out.old result out.new answer.new }
{
    host::quotebox_no_spreads(list, out, answer)
}
