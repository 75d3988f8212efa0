// Lent memory and the state in it: what a call answers and refuses with, the checks of what is handed back, and the gap row of a
// segment.
#![tactic(auto)]

mod answers;
mod gap_rows;
mod refusal;
mod state;

pub use answers::{Judged, Recorded};
pub use gap_rows::{copy_row, put_row, row_of};
pub use refusal::{Refusal, of_fault, refusal_numbers};
pub use sequence::{GapsListed, Run};
pub use state::{check_memory, check_segment, check_state};
