// Bytes to numbers: big-endian numbers at a place of a slice; and which bytes a key may have.
#![tactic(auto)]

mod bytes;
mod number;

pub use bytes::all_printable;
pub use number::{put_u8, put_u16, put_u32, u8_at, u16_at, u32_at, u64_at};
