// The contract list, the spread list beside it, and keys looked up in them.
use crate::leaves;
use files::{CONTRACTS, Habit};
use std::io::{Result, Write};

// The most bytes of a spread list without pairs that are shown.
const ROOM: usize = 4096;

pub fn put_list(page: &mut impl Write, list: &[u8]) -> Result<()> {
    let sound = contracts::sound(list, CONTRACTS);
    let header = contracts::header_sound(list, CONTRACTS);
    write!(page, "sound {sound} header {header}")
}

// What is asked has two bytes for the size of the contract list, that list and the spread list.
pub fn put_spreads(page: &mut impl Write, asked: &[u8]) -> Result<()> {
    if asked.len() < 2 {
        return Ok(());
    }
    let size = wire::u16_at(asked, 0) as usize;
    let Some((list, spreads)) = asked[2..].split_at_checked(size) else {
        return Ok(());
    };
    let sound = pairs::spreads_sound(list, spreads);
    let header = pairs::spread_header_sound(list, spreads);
    write!(page, "sound {sound} header {header}")
}

// The size of the spread list without pairs, and its sum.
pub fn put_no_spreads(page: &mut impl Write, list: &[u8]) -> Result<()> {
    let mut room = [0; ROOM];
    let size = pairs::no_spreads_size(list);
    pairs::put_no_spreads(list, &mut room);
    if ROOM < size {
        return Ok(());
    }
    write!(page, "size {size} sum ")?;
    leaves::put_sum(page, &room[..size])
}

fn put_place(
    page: &mut impl Write,
    list: &[u8],
    habit: Habit,
    segment: usize,
    key: &[u8],
) -> Result<()> {
    let sought = lookup::place_of(list, habit, segment, key);
    write!(page, "segment {segment}")?;
    match sought.found {
        None => write!(page, " nowhere"),
        Some(place) => write!(page, " place {place}"),
    }?;
    write!(page, " compared {}", sought.compared)
}

// What is asked has a letter, a key of the habit's size and the list.
pub fn put_key(page: &mut impl Write, asked: &[u8], habit: Habit) -> Result<()> {
    let end = 1 + habit.key as usize;
    if asked.len() < end {
        return Ok(());
    }
    let list = &asked[end..];
    match lookup::segment_of(list, asked[0]) {
        None => write!(page, "nowhere"),
        Some(segment) => put_place(page, list, habit, segment, &asked[1..end]),
    }
}
