// A message that was written, in hexadecimal.
use crate::put_refused;
use state::Refusal;
use std::io;
use std::io::Write;

const DIGITS: &[u8; 16] = b"0123456789abcdef";

// Two digits for a byte, the high one first.
// Kept: by `write!` and `{byte:02x}` a command that writes a message takes three times the instructions.
fn put_message(page: &mut impl Write, message: &[u8]) -> io::Result<()> {
    let size = message.len();
    write!(page, "write ok {size} ")?;
    for byte in message {
        let byte = usize::from(*byte);
        page.write_all(&[DIGITS[byte / 16], DIGITS[byte % 16]])?;
    }
    writeln!(page, "")
}

// The message lies at the front of what was lent.
pub fn put_written(
    page: &mut impl Write,
    answer: Result<usize, Refusal>,
    out: &[u8],
) -> io::Result<()> {
    match answer {
        Ok(size) => put_message(page, &out[..size.min(out.len())]),
        Err(refusal) => put_refused(page, "write", refusal),
    }
}
