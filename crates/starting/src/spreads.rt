// The spread list of a host without spreads.
ghost use Rattle.starting.specs.StartPromises.{PutNoSpreads};

use state::Refusal;

// As much of the contract list is looked at as in the calls after start.
pub fn no_spreads(list: &[u8], out: &mut [u8]) -> Result<usize, Refusal>
    ensures { PutNoSpreads list.now out.old result out.new }
{
    if !contracts::header_sound(list, files::CONTRACTS) {
        return Err(Refusal::List);
    }
    let size = pairs::no_spreads_size(list);
    if out.len() < size {
        return Err(Refusal::Memory(size));
    }
    pairs::put_no_spreads(list, out);
    Ok(size)
}
