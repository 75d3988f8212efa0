// What the programs share: standard input and output in large pieces, the file of contracts, numbers read and runs said.
#![tactic(auto)]

mod file;
mod memory;
mod numbers;
mod page;
mod room;
mod runs;

pub use file::{FILE_ROOM, MOST_LIST, read_contracts};
pub use memory::RUN_CELLS;
pub use numbers::{Cell, cells_at};
pub use page::Page;
pub use room::{Room, read_all};
pub use runs::{put_runs, runs_in};
