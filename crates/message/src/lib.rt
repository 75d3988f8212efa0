// One message: behind the checks of its head those of its data and its key, 11 to 13, and what the message is.
#![tactic(auto)]

mod body;

pub use body::{Outline, What, find, read};
