// The checks of a house file: in full, and of its header alone.
#![tactic(auto)]

mod check;

pub use check::{
    MOST_SEGMENTS, bodies_sound, entries_sound, header_sound, is_letter, key_of, sound,
};
