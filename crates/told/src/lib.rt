// What a host is told of a call: the number that is returned, the answer, and the values of a record.
#![tactic(auto)]

mod answer;
mod shown;

pub use answer::{
    Told, of_judged, of_listed, of_recorded, of_started, of_written, of_written_off, tell,
};
pub use shown::{show, show_spread};
