// A message before its data: its fields, and the checks 5 to 10 in document 01's order.
#![tactic(auto)]

mod fields;
mod head;

pub use fields::{DATA, TRAILER, form_in, length_of, number_of, segment_letter_of};
pub use head::{Fault, is_heartbeat, judge_form, judge_frame, judge_heartbeat, takes_number};
