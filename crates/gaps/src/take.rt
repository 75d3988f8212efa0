// Taking the batches of standard input, one after the other.
ghost use Rattle.std.specs.Prelude.{◌≤◌, IfOk, length};
ghost use Rattle.console.specs.Page.{Stays};
ghost use Rattle.lent.specs.Lists.{SameLists};

use console::{Page, Room};
use lent::Lent;
use quotebox::Judged;
use std::io::{Read, Result, Write};

// The bytes of flag, data size and number of messages.
const FRONT: usize = 5;

const MOST_DATA: usize = 32767;

// The bytes of the batch that begins here, by its front: of one that says it is too long, only those.
fn length_of(bytes: &[u8]) -> usize {
    match wire::u16_at(bytes, 1) as usize {
        size if MOST_DATA < size => FRONT,
        size => FRONT + size,
    }
}

// Whether a batch has all the bytes that its front says.
fn is_whole(batch: &[u8]) -> bool {
    FRONT <= batch.len() && batch.len() - FRONT == wire::u16_at(batch, 1) as usize
}

// Batch number `batch`, and its line where it is refused.
fn take_batch(page: &mut impl Write, batch: u64, bytes: &[u8], lent: &mut Lent) -> Result<()>
    ensures { SameLists lent.old lent.new }
{
    match lent.take(bytes) {
        Judged::Accepted(_, _, _, _) => Ok(()),
        Judged::Refused(refusal, _) => report::put_refused(page, batch, refusal),
    }
}

// How many bytes the next batch has, as far as the input has them: all of these are yet to be used.
fn next<R: Read, P: Print, const N: usize, const M: usize>(
    input: &mut R,
    room: &mut Room<N>,
    page: &mut Page<'_, P, M>,
) -> Result<usize>
    ensures page { Stays page.old page.new }
    ensures size { IfOk result (λ size. size ≤ length room.new) }
{
    room.fill_beside(input, page, FRONT)?;
    let wanted = length_of(room.unread());
    room.fill_beside(input, page, wanted)?;
    Ok(room.first(wanted).len())
}

// All batches. The reading ends with the input, and behind a batch that is cut short or says it is too long. A proved loop has to end,
// so the batches are counted, up to a number that no run reaches.
pub fn take_all<R: Read, P: Print, const M: usize>(
    input: &mut R,
    page: &mut Page<'_, P, M>,
    lent: &mut Lent,
) -> Result<()>
    ensures { SameLists lent.old lent.new }
{
    let mut room: Room<65536> = Room::new();
    for batch in 0..u64::MAX {
        let size = next(input, &mut room, page)?;
        let bytes = &room.unread()[..size];
        if bytes.is_empty() {
            break;
        }
        take_batch(page, batch, bytes, lent)?;
        if !is_whole(bytes) {
            break;
        }
        room.consume(size);
    }
    Ok(())
}
