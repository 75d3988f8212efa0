// Messages and the spread list without pairs, written.
ghost use Rattle.std.specs.Prelude.{◌≤◌, length};

use layout::{Item, KEY_BYTES, PAIR_BYTES};
use quotebox::Refusal;
use std::io;
use std::io::Write;

// The most room for a message.
const MOST_ROOM: usize = 1024;

// The spread list that is handed over with a contract list until one is told, and how long it is: without pairs, and empty
// where there is none.
pub fn beside(list: &[u8], spreads: &mut [u8]) -> usize
    ensures { result ≤ length spreads.old }
{
    match quotebox::no_spreads(list, spreads) {
        Ok(size) => size.min(spreads.len()),
        Err(_) => 0,
    }
}

fn write_contract(bytes: &[u8], out: &mut [u8]) -> Result<usize, Refusal> {
    let level = commands::level_at(bytes, 3);
    let number = wire::u32_at(bytes, 4);
    let key = commands::key_at::<KEY_BYTES>(bytes, commands::WRITE_KEY);
    let quote = commands::quote_in(bytes, level);
    let code = commands::code_in(bytes);
    quotebox::write_message(code, level, number, &key, quote, out)
}

fn write_pair(bytes: &[u8], out: &mut [u8]) -> Result<usize, Refusal> {
    let level = commands::level_at(bytes, 3);
    let number = wire::u32_at(bytes, 4);
    let pair = commands::key_at::<PAIR_BYTES>(bytes, commands::WRITE_KEY);
    let quote = commands::spread_in(bytes, level);
    let code = commands::code_in(bytes);
    quotebox::write_spread(code, level, number, &pair, quote, out)
}

// Of the room as much is lent as the command tells.
pub fn write(page: &mut impl Write, bytes: &[u8], item: Item) -> io::Result<()> {
    let mut out = [0u8; MOST_ROOM];
    let room = commands::room_in(bytes, item).min(MOST_ROOM);
    let written = match item {
        Item::Contract => write_contract(bytes, &mut out[..room]),
        Item::Pair => write_pair(bytes, &mut out[..room]),
    };
    lines::put_written(page, written, &out)
}
