// The rows of each message, read into cells; and the plain values of numbers, which rows are written from.
#![tactic(auto)]

mod cells;
mod read;

pub use cells::{NONE, byte_in, held_in, held_of, session_cell, session_in, sided, value_of};
pub use decimal::Held;
pub use forms::{
    BARE, Form, Item, KEY_BYTES, KEY_ROWS, Level, MOST_DATA, MOST_ROWS, Markets, Named, PAIR_BYTES,
    PAIR_ROWS, Row, Session, Subject, Sum, data_length, form_of, is_stamped, key_bytes_of,
    key_rows_of, record_form, session_of, subject_of, sum_rule, written_form,
};
pub use read::{BadRow, is_market, is_status, read_update};
