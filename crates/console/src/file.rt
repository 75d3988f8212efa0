// The file `contracts`.
ghost use Rattle.io.specs.Counts.{IsPrefixLen};

use crate::room;
use std::fs;
use std::rt::Files;

// The bytes of the longest file that is read as a list.
pub const MOST_LIST: usize = 16384;

// One more: so that a longer file shows.
pub const FILE_ROOM: usize = 16385;

// Puts the file at the start of the room and answers how many bytes it has there: 0 where it is missing or can't be read.
// Kept: a missing file is an empty list to every caller, so an Option would be taken apart at once.
pub fn read_contracts(rt: &impl Files, room: &mut [u8]) -> usize
    ensures { IsPrefixLen result room.new }
{
    match fs::open(rt, "contracts") {
        Ok(mut file) => room::read_all(&mut file, room).unwrap_or(0),
        Err(_) => 0,
    }
}
