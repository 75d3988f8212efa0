// The commands of the test bench: how long each is, reading the next one, and what it tells.
#![tactic(auto)]

mod fields;
mod input;
mod kind;
mod length;

pub use fields::{batch_in, code_in, key_at, level_at, quote_in, room_in, spread_in, starts_in};
pub use input::{next, next_beside};
pub use kind::Command;
pub use length::{LENGTH_FRONT, READ_KEY, WRITE_KEY};
