// A number above highest with numbers between: those are missing from now on.
ghost use Rattle.std.specs.Prelude.{◌≡◌, false};
ghost use Rattle.sequence.specs.Runs.{missing};
ghost use Rattle.sequence.specs.Row.{gaps_of, runs_of};
ghost use Rattle.taking.specs.Steps.{Skipped};
ghost use Rattle.taking.specs.Promises.{Took};

use crate::{Full, Taken, late};
use sequence::{CELLS, HIGHEST, MOST, runs};

// They make a run of their own.
#[tactic(auto, using(crate::proofs::Taking::behind_took), unfolding(sequence::specs::Row::gaps_of))]
fn add(row: &mut [u32; CELLS], number: u32) -> Result<Taken, Full>
    requires { Skipped row.old number × (missing (runs_of row.old) (gaps_of row.old).highest ≡ false) }
    ensures { Took row.old number result row.new }
{
    if runs::number(row) == MOST {
        return Err(Full);
    }
    let first = row[HIGHEST] + 1;
    runs::append(row, first, number - 1);
    row[HIGHEST] = number;
    Ok(Taken::Taken)
}

// Where a run names highest, and so ends there, they join that run.
pub(crate) fn skip(row: &mut [u32; CELLS], number: u32) -> Result<Taken, Full>
    requires { Skipped row.old number }
    ensures { Took row.old number result row.new }
{
    let highest = row[HIGHEST];
    match late::find(row, highest) {
        Some(i) => {
            let first = runs::first(row, i);
            runs::put(row, i, first, number - 1);
            row[HIGHEST] = number;
            Ok(Taken::Taken)
        }
        None => add(row, number),
    }
}
