// The forms of messages as data: which code and length name which form, and what a form has.
#![tactic(auto)]

mod forms;
mod rows;

pub use forms::{
    BARE, Form, Item, KEY_BYTES, KEY_ROWS, MOST_DATA, MOST_ROWS, Named, PAIR_BYTES, PAIR_ROWS,
    Session, Subject, Sum, data_length, form_of, is_stamped, key_bytes_of, key_rows_of,
    record_form, session_of, subject_of, sum_rule, written_form,
};
pub use rows::{Level, Markets, Row, width_of};
