// How long a command is, by the bytes at its front.
ghost use Rattle.std.specs.Prelude.{◌≡◌, ◌+◌, ◌≤◌};
ghost use Rattle.commands.specs.Letters.{level_by};
ghost use Rattle.values.specs.Values.{first, most};

use crate::kind::Command;
use layout::{Item, KEY_BYTES, Level, PAIR_BYTES};

const MOST_BATCH: usize = 40000;

// The bytes of a command's byte and a length behind it.
pub const LENGTH_FRONT: usize = 5;

// A command to read: its letter and level stand in front of the key.
pub const READ_KEY: usize = 3;

// A command to write: its code, level and number stand in front of the key; the room, and then the rows, behind it.
pub const WRITE_KEY: usize = 8;

const fn key_bytes(item: Item) -> usize
    ensures { result ≤ 78 }
{
    match item {
        Item::Contract => KEY_BYTES,
        Item::Pair => PAIR_BYTES,
    }
}

pub fn write_room(item: Item) -> usize
    ensures { result ≤ 86 }
{
    WRITE_KEY + key_bytes(item)
}

pub fn write_front(item: Item) -> usize
    ensures { result ≤ 88 }
{
    write_room(item) + 2
}

// The bytes by which a command tells its length.
pub fn front_of(command: Command) -> usize {
    match command {
        Command::Start | Command::Off => 2,
        Command::Gaps => 4,
        Command::Judge | Command::Take | Command::List | Command::Spreads => LENGTH_FRONT,
        Command::Lend | Command::Store => 9,
        Command::Read(item) => READ_KEY + key_bytes(item),
        Command::Write(item) => write_front(item),
    }
}

// The rows of an update behind the key.
pub fn rows_at(item: Item, level: Level) -> usize
    ensures { first item + result ≤ most }
{
    slots::record_rows(item, level)
}

pub fn level_of(byte: u8) -> Option<Level>
    ensures { result ≡ level_by byte }
{
    match byte {
        b'1' => Some(Level::One),
        b'2' => Some(Level::Two),
        _ => None,
    }
}

// With so many bytes behind its length.
fn with_length(bytes: &[u8], most: usize) -> Option<usize> {
    let length = wire::u32_at(bytes, 1) as usize;
    if most < length {
        return None;
    }
    Some(LENGTH_FRONT + length)
}

// The bytes of the command that begins here; none where the reading ends with it.
pub fn length_of(command: Command, bytes: &[u8]) -> Option<usize> {
    let front = front_of(command);
    if bytes.len() < front {
        return None;
    }
    match command {
        Command::Start => Some(2 + 4 * (wire::u8_at(bytes, 1) as usize)),
        Command::Judge | Command::Take => with_length(bytes, MOST_BATCH),
        Command::List | Command::Spreads => with_length(bytes, console::MOST_LIST),
        Command::Read(_) => level_of(wire::u8_at(bytes, 2)).map(|_| front),
        Command::Write(item) => {
            let level = level_of(wire::u8_at(bytes, 3))?;
            Some(front + 8 * rows_at(item, level))
        }
        _ => Some(front),
    }
}
