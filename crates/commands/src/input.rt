// Reading the next command.
ghost use Rattle.std.specs.Prelude.{◌≤◌, IfOk, IfSome, length};
ghost use Rattle.console.specs.Page.{Stays};

use crate::kind::Command;
use crate::length;
use console::{Page, Room};
use std::io::{Read, Result, Write};

// The next command and its length, which stands at the front of what is yet to be used: none where the input ends, and for an
// unknown one, a level other than 1 or 2, one too long or cut short. Where writing out what was said or reading fails, the answer is
// that error, as `fill` has it.
pub fn next<R: Read, W: Write, const N: usize>(
    input: &mut R,
    room: &mut Room<N>,
    page: &mut W,
) -> Result<Option<(Command, usize)>>
    ensures { IfOk result (λ next. IfSome next (λ command. command.1 ≤ length room.new)) }
{
    room.fill(input, page, 1)?;
    let Some(command) = Command::of(wire::u8_at(room.unread(), 0)) else {
        return Ok(None);
    };
    room.fill(input, page, length::front_of(command))?;
    let Some(length) = length::length_of(command, room.unread()) else {
        return Ok(None);
    };
    room.fill(input, page, length)?;
    if room.unread().len() < length {
        return Ok(None);
    }
    Ok(Some((command, length)))
}

// As `next`, where what was said stands on a page: no byte of it is lost or changed.
// Kept: `next` takes any writer, and of one that isn't known `Stays` can't be said.
pub fn next_beside<R: Read, P: Print, const N: usize, const M: usize>(
    input: &mut R,
    room: &mut Room<N>,
    page: &mut Page<'_, P, M>,
) -> Result<Option<(Command, usize)>>
    ensures page { Stays page.old page.new }
    ensures command { IfOk result (λ next. IfSome next (λ command. command.1 ≤ length room.new)) }
{
    room.fill_beside(input, page, 1)?;
    let Some(command) = Command::of(wire::u8_at(room.unread(), 0)) else {
        return Ok(None);
    };
    room.fill_beside(input, page, length::front_of(command))?;
    let Some(length) = length::length_of(command, room.unread()) else {
        return Ok(None);
    };
    room.fill_beside(input, page, length)?;
    if room.unread().len() < length {
        return Ok(None);
    }
    Ok(Some((command, length)))
}

#[cfg(test)]
mod tests {
    use super::*;

    #[test]
    fn next_takes_any_writer(rt: HostRuntime) -> Result<()> {
        let mut room: Room<16> = Room::new();
        let mut input: &[u8] = b"O\x01J\0\0\0\x03abcK\0\0\0\x03def";
        let mut page = std::io::sink();
        let off = next(&mut input, &mut room, &mut page)?;
        assert!(rt; matches!(off, Some((Command::Off, 2))));
        room.consume(2);
        let judge = next(&mut input, &mut room, &mut page)?;
        assert!(rt; matches!(judge, Some((Command::Judge, 8))));
        assert_eq!(rt; room.first(8), b"J\0\0\0\x03abc".as_slice());
        room.consume(8);
        // The room had no place for all of this one until now, and the input ends with it.
        let take = next(&mut input, &mut room, &mut page)?;
        assert!(rt; matches!(take, Some((Command::Take, 8))));
        room.consume(8);
        let mut cut_short: &[u8] = b"K\0\0\0\x04abc";
        assert!(rt; next(&mut cut_short, &mut room, &mut page)?.is_none());
        Ok(())
    }
}
