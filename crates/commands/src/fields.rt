// What a command tells.
ghost use Rattle.std.specs.Prelude.{◌≡◌, ◌≤◌, unwrap_or};
ghost use Rattle.wire.specs.Number.{number_at};
ghost use Rattle.commands.specs.Letters.{level_by};

use crate::length;
use layout::{Item, Level};
use quote::Quote;
use spread::SpreadQuote;
use writer::Code;

// As many start numbers as a command can have.
const MOST_STARTS: usize = 255;

pub fn starts_in(bytes: &[u8]) -> [u32; MOST_STARTS] {
    let mut starts = [0u32; MOST_STARTS];
    console::cells_at(bytes, 2, &mut starts);
    starts
}

// The batch or the list of a command, behind its length.
pub fn batch_in(bytes: &[u8]) -> &[u8] {
    bytes.get(length::LENGTH_FRONT..).unwrap_or(&[])
}

// A level's byte is looked at before the command is read: there are no others, and what is no 1 would be 2.
pub fn level_at(bytes: &[u8], at: usize) -> Level
    ensures { result ≡ unwrap_or (level_by (number_at 1 bytes.now at)) Level.Two }
{
    length::level_of(wire::u8_at(bytes, at)).unwrap_or(Level::Two)
}

// The key that begins at a place.
pub fn key_at<const KEY: usize>(bytes: &[u8], at: usize) -> [u8; KEY]
    requires { (at ≤ 8) × (KEY ≤ 65535) }
{
    let mut key = [0u8; KEY];
    console::cells_at(bytes, at, &mut key);
    key
}

pub fn code_in(bytes: &[u8]) -> Code {
    Code(wire::u8_at(bytes, 1), wire::u8_at(bytes, 2))
}

// The room for a message to write.
pub fn room_in(bytes: &[u8], item: Item) -> usize {
    wire::u16_at(bytes, length::write_room(item)) as usize
}

// The rows of a message to write behind its key, a value each.
fn values_in(bytes: &[u8], item: Item, level: Level) -> [u64; values::MOST] {
    let mut told = [0u64; values::MOST];
    let first = slots::cells_in_front(item);
    let end = first + length::rows_at(item, level);
    console::cells_at(bytes, length::write_front(item), &mut told[first..end]);
    told
}

pub fn quote_in(bytes: &[u8], level: Level) -> Quote {
    values::quote_in(level, &values_in(bytes, Item::Contract, level))
}

pub fn spread_in(bytes: &[u8], level: Level) -> SpreadQuote {
    values::spread_in(level, &values_in(bytes, Item::Pair, level))
}
