// Standard input in large pieces.
ghost use Rattle.std.specs.Prelude.{◌≡◌, ℕ, ◌+◌, ◌-◌, ◌≤◌, List, [], IfOk, length, take, drop, min, OnErr};
ghost use Rattle.io.specs.Counts.{IsPrefixLen};

use crate::page::Page;
use std::io::{Read, Result, Write};
use std::marker::Model;

// A room holds what was read: from `at` up to `end` it is yet to be used.
#[derive(Drop)]
pub struct Room<const N: usize> {
    bytes: [u8; N],
    at: usize,
    end: usize,
}

// Clauses see the bytes that are yet to be used.
impl<const N: usize> Model for Room<N> {
    ghost Value = { List ℕ };

    ghost view = { λ r. take (r.end - r.at) (drop r.at r.bytes) };

    ghost invariant = { λ r. (r.at ≤ r.end) × (r.end ≤ N) };
}

impl<const N: usize> Room<N> {
    ghost use Rattle.console.specs.Page.{Stays};

    pub fn new() -> Self
        ensures { result ≡ [] }
    {
        Room {
            bytes: [0; N],
            at: 0,
            end: 0,
        }
    }

    // What is yet to be used.
    pub fn unread(&self) -> &[u8]
        ensures { result.now ≡ self.now }
    {
        let all = &self.bytes[..];
        &all[self.at..self.end]
    }

    // The first of what is yet to be used: so many bytes, or all where there are fewer.
    pub fn first(&self, count: usize) -> &[u8]
        ensures { result.now ≡ take count self.now }
    {
        let all = &self.bytes[..];
        &all[self.at..end_of(&all[..self.end], self.at, count)]
    }

    // So many bytes are used.
    pub fn consume(&mut self, count: usize)
        requires { count ≤ length self.old }
        ensures { self.new ≡ drop count self.old }
    {
        self.at += count;
    }

    // Has so many bytes yet to be used, or all that are left of the input. What was said is written out before more is waited for.
    // Where writing or reading fails, the answer is that error. What was yet to be used still is, in front of what was read, after an
    // error too; what the same call read before an error is lost.
    pub fn fill<R: Read, W: Write>(
        &mut self,
        input: &mut R,
        out: &mut W,
        wanted: usize,
    ) -> Result<()>
        ensures { take (length self.old) self.new ≡ self.old }
    {
        if wanted <= self.end - self.at {
            return Ok(());
        }
        out.flush()?;
        self.read_on(input, wanted)
    }

    // As `fill`, where what was said stands on a page: no byte of it is lost or changed.
    // Kept: `fill` takes any writer, and of one that isn't known `Stays` can't be said.
    pub fn fill_beside<R: Read, P: Print, const M: usize>(
        &mut self,
        input: &mut R,
        page: &mut Page<'_, P, M>,
        wanted: usize,
    ) -> Result<()>
        ensures kept { take (length self.old) self.new ≡ self.old }
        ensures page { Stays page.old page.new }
    {
        if wanted <= self.end - self.at {
            return Ok(());
        }
        page.flush()?;
        self.read_on(input, wanted)
    }

    // What is yet to be used moves to the front, and what is read goes behind it.
    fn read_on<R: Read>(&mut self, input: &mut R, wanted: usize) -> Result<()>
        ensures { take (length self.old) self.new ≡ self.old }
    {
        let left = self.end - self.at;
        self.bytes.copy_within(self.at..self.end, 0);
        self.at = 0;
        self.end = left;
        self.end = read_until(input, &mut self.bytes, left, wanted)?;
        Ok(())
    }
}

// Where so many bytes end that begin at a place: behind all of them, or where what was read does.
fn end_of(read: &[u8], at: usize, count: usize) -> usize
    requires { at ≤ length read.now }
    ensures { result ≡ at + min count (length read.now - at) }
{
    let end = read.len();
    // Kept: the bound stands by itself, where `min` would answer too, so that an edit can turn one operand of it and nothing else.
    if count <= end - at {
        return at + count;
    }
    end
}

// One read behind what is there: where it ends now, and where it ended where nothing came. What is there stays, after an error too.
fn read_behind<R: Read>(input: &mut R, room: &mut [u8], end: usize) -> Result<usize>
    requires { end ≤ length room.old }
    ensures lower_bound { IfOk result (λ answer. (end ≤ answer) × (answer ≤ length room.old)) }
    ensures room_unchanged { take end room.new ≡ take end room.old }
{
    let got = input.read(&mut room[end..])?;
    Ok(end + got)
}

// Reads until the room holds so many bytes from its front on, is full, or the input ends: a short read is not the end. What is there
// stays, after an error too.
fn read_until<R: Read>(input: &mut R, room: &mut [u8], from: usize, wanted: usize) -> Result<usize>
    requires { from ≤ length room.old }
    ensures lower_bound { IfOk result (λ answer. (from ≤ answer) × (answer ≤ length room.old)) }
    ensures room_unchanged { take from room.new ≡ take from room.old }
{
    let mut end = from;
    // Kept: no index is counted, since a read brings as many bytes as it likes.
    while end < wanted {
        let more = read_behind(input, room, end)?;
        if more == end {
            break;
        }
        end = more;
    }
    Ok(end)
}

// Reads until the room is full or the input ends, and answers how many bytes it put at the room's start. After an error the room
// holds some of what came.
pub fn read_all<R: Read>(input: &mut R, room: &mut [u8]) -> Result<usize>
    ensures reads { IfOk result (λ size. IsPrefixLen size room.new) }
    ensures failed { OnErr result (length room.new ≡ length room.old) }
{
    let wanted = room.len();
    read_until(input, room, 0, wanted)
}

#[cfg(test)]
mod tests {
    use super::*;
    use std::io::ErrorKind;

    // A writer that is no page: so many times it is still told to write out what was said, and then it fails.
    #[derive(Drop)]
    struct Other {
        left: u8,
    }

    impl Write for Other {
        fn write(&mut self, buf: &[u8]) -> Result<usize> {
            Ok(buf.len())
        }

        fn flush(&mut self) -> Result<()> {
            let Some(left) = self.left.checked_sub(1) else {
                return Err(ErrorKind::WriteZero.into());
            };
            self.left = left;
            Ok(())
        }
    }

    // How many bytes are wanted, what is then yet to be used, how many of these are used, and how many times are left.
    const TURNS: [(usize, &str, usize, u8); 5] = [
        (2, "abcd", 1, 2),
        (3, "bcd", 0, 2),
        (4, "bcde", 2, 1),
        (3, "def", 0, 0),
        (2, "def", 3, 0),
    ];

    #[test]
    fn fill_tells_any_writer_before_it_reads(rt: HostRuntime) -> Result<()> {
        let mut room: Room<4> = Room::new();
        let mut input: &[u8] = b"abcdef";
        let mut out = Other { left: 3 };
        for (wanted, unread, used, left) in TURNS {
            room.fill(&mut input, &mut out, wanted)?;
            assert_eq!(rt; room.unread(), unread.as_bytes(), "{wanted} wanted");
            assert_eq!(rt; out.left, left, "{wanted} wanted");
            room.consume(used.min(room.unread().len()));
        }
        let mut more: &[u8] = b"g";
        assert!(rt; room.fill(&mut more, &mut out, 1).is_err());
        assert!(rt; room.unread().is_empty());
        Ok(())
    }
}
