// A number that comes, in a segment's gap row: taken, old, or one run too many.
#![tactic(auto)]

mod late;
mod skip;

ghost use Rattle.std.specs.Prelude.{◌≡◌, true};
ghost use Rattle.sequence.specs.RowLaid.{sound_gap_row};
ghost use Rattle.taking.specs.Promises.{Took};

use sequence::{CELLS, HIGHEST};

// What becomes of a number.
#[derive(Clone, Copy)]
pub enum Taken {
    Taken,
    Old,
}

// 14: more than 64 runs would stand, and the row is as it was.
#[derive(Clone, Copy)]
pub struct Full;

// A number comes. The row has to be sound: to look would cost the number that comes in order, which is nearly every one,
// more than all else does.
// Kept: that the row is sound stands in several contracts, since a struct that holds the lent row would owe it at each write, and the
// writes of one step break it in between.
#[tactic(auto, unfolding(sequence::specs::Row::gaps_of))]
pub fn take(row: &mut [u32; CELLS], number: u32) -> Result<Taken, Full>
    requires { sound_gap_row row.old ≡ true }
    ensures { Took row.old number result row.new }
{
    let highest = row[HIGHEST];
    if number <= highest {
        return late::late(row, number);
    }
    if number - highest == 1 {
        row[HIGHEST] = number;
        return Ok(Taken::Taken);
    }
    skip::skip(row, number)
}
