// Records of contracts and of pairs read.
use crate::Lent;
use layout::{Item, KEY_BYTES, Level, PAIR_BYTES};
use quotebox::Recorded;
use std::io::{Result, Write};

fn read_contract(
    bytes: &[u8],
    lent: &Lent,
    level: Level,
    shown: &mut [u64; values::MOST],
) -> Recorded {
    let letter = wire::u8_at(bytes, 1);
    let key = commands::key_at::<KEY_BYTES>(bytes, commands::READ_KEY);
    let reading = quotebox::read_record(
        lent.list,
        lent.spreads,
        lent.rows,
        lent.records,
        letter,
        &key,
        level,
    );
    values::put(level, reading.quote, shown);
    reading.answer
}

fn read_pair(bytes: &[u8], lent: &Lent, level: Level, shown: &mut [u64; values::MOST]) -> Recorded {
    let letter = wire::u8_at(bytes, 1);
    let pair = commands::key_at::<PAIR_BYTES>(bytes, commands::READ_KEY);
    let reading = quotebox::read_spread(
        lent.list,
        lent.spreads,
        lent.rows,
        lent.records,
        letter,
        &pair,
        level,
    );
    values::put_spread(level, reading.quote, shown);
    reading.answer
}

pub fn read(page: &mut impl Write, bytes: &[u8], item: Item, lent: &Lent) -> Result<()> {
    let level = commands::level_at(bytes, 2);
    let mut shown = [0u64; values::MOST];
    let answer = match item {
        Item::Contract => read_contract(bytes, lent, level, &mut shown),
        Item::Pair => read_pair(bytes, lent, level, &mut shown),
    };
    lines::put_recorded(page, item, level, answer, &shown)
}
