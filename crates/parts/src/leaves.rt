// Checksums, numbers read and numbers written.
use amount::{Amount, Difference, FieldFault, Held, Price, Quantity, Turnover};
use std::io;
use std::io::Write;

pub fn put_sum(page: &mut impl Write, text: &[u8]) -> io::Result<()> {
    let sent = checksum::sent(checksum::sum(text));
    write!(page, "{} {}", sent[0], sent[1])
}

pub fn put_number(page: &mut impl Write, number: Result<Held, FieldFault>) -> io::Result<()> {
    match number {
        Ok(Held::Nothing) => write!(page, "none"),
        Ok(Held::Units(units)) => write!(page, "amount {units}"),
        Ok(Held::Below(units)) => write!(page, "below {units}"),
        Err(FieldFault::Malformed) => write!(page, "malformed"),
        Err(FieldFault::OutOfRange) => write!(page, "out of range"),
    }
}

// What was written, in brackets.
pub fn put_bytes(page: &mut impl Write, text: &[u8]) -> io::Result<()> {
    page.write_all(b"[")?;
    page.write_all(text)?;
    page.write_all(b"]")
}

fn write_number(kind: u8, below: bool, units: u64, field: &mut [u8]) -> Result<(), FieldFault> {
    // Kept: as in `answer`, a letter stands once.
    match kind {
        b'p' => Price::of(units).write(field),
        b'd' => Difference::of(below, units).write(field),
        b'q' => Quantity::of(units).write(field),
        _ => Turnover::of(units).write(field),
    }
}

// What is asked has eight bytes for the units, one for the width, and of a difference a 1 where it is below zero.
pub fn put_text(page: &mut impl Write, kind: u8, asked: &[u8]) -> io::Result<()> {
    let units = wire::u64_at(asked, 0);
    let width = wire::u8_at(asked, 8) as usize;
    let below = wire::u8_at(asked, 9) == 1;
    let mut room = [0; 255];
    let field = &mut room[..width];
    match write_number(kind, below, units, field) {
        Ok(()) => put_bytes(page, field),
        Err(_) => write!(page, "refused"),
    }
}
