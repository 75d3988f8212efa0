// Where the records of lent memory stand, and how many cells are wanted for them.
#![tactic(auto)]

mod records;

pub use records::{
    CONTRACT, CONTRACT_TWO, Fronts, PAIR, cells_in_front, fronts_of, level_cells, record_at,
    record_rows, records_wanted,
};
