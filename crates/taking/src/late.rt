// A number that isn't above highest: missing or old.
ghost use Rattle.std.specs.Prelude.{◌≡◌, true, ◌≤◌};
ghost use Rattle.sequence.specs.Row.{gaps_of, runs_of};
ghost use Rattle.sequence.specs.RowLaid.{sound_gap_row};
ghost use Rattle.taking.specs.Steps.{Placed, Missed};
ghost use Rattle.taking.specs.Promises.{Took};

use crate::{Full, Taken};
use sequence::{CELLS, MOST, runs};

// The search goes from the highest run down, since a late number is seldom very late: the first run that doesn't begin
// above the number names it, or none does.
pub(crate) fn find(row: &[u32; CELLS], number: u32) -> Option<usize>
    requires { sound_gap_row row.now ≡ true }
    ensures { Placed (runs_of row.now) number result }
{
    for i in (0..runs::number(row)).rev() {
        if runs::first(row, i) <= number {
            if number <= runs::last(row, i) {
                return Some(i);
            }
            return None;
        }
    }
    None
}

// A missing number leaves its run: that run goes, is shortened at one end, or becomes two.
fn fill(row: &mut [u32; CELLS], i: usize, number: u32) -> Result<Taken, Full>
    requires { Missed row.old i number }
    ensures { Took row.old number result row.new }
{
    let first = runs::first(row, i);
    let last = runs::last(row, i);
    if first == last {
        runs::remove(row, i);
        return Ok(Taken::Taken);
    }
    if first == number {
        runs::put(row, i, number + 1, last);
        return Ok(Taken::Taken);
    }
    if last == number {
        runs::put(row, i, first, number - 1);
        return Ok(Taken::Taken);
    }
    if runs::number(row) == MOST {
        return Err(Full);
    }
    runs::divide(row, i, number - 1, number + 1);
    Ok(Taken::Taken)
}

#[tactic(auto, using(crate::proofs::Taking::is_missed))]
pub(crate) fn late(row: &mut [u32; CELLS], number: u32) -> Result<Taken, Full>
    requires { (sound_gap_row row.old ≡ true) × (number ≤ (gaps_of row.old).highest) }
    ensures { Took row.old number result row.new }
{
    match find(row, number) {
        Some(i) => fill(row, i, number),
        None => Ok(Taken::Old),
    }
}
