// The public calls over lent memory, under one name.
#![tactic(auto)]

pub use batch::{judge, take};
pub use layout::KEY_ROWS;
pub use listing::{list_gaps, write_off};
pub use reading::{Reading, SpreadReading, read_record, read_spread};
pub use slots::record_rows;
pub use starting::{no_spreads, start};
pub use state::{GapsListed, Judged, Recorded, Refusal, Run, refusal_numbers};
pub use writer::{Code, write_message, write_spread};
