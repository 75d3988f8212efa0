// Runs copied out of the lent rows, and back.
ghost use Rattle.std.specs.Prelude.{◌≡◌};
ghost use Rattle.copies.specs.Rows.{over, blanks};

use crate::run;
use crate::run::Run;

#[tactic(auto, using(crate::specs::RowsLaws::over_is))]
pub fn out(rows: &[Run]) -> [Run; run::MOST]
    ensures { result ≡ over rows.now blanks }
{
    let count = rows.len().min(run::MOST);
    let mut runs = run::blanks();
    runs[..count].copy_from_slice(&rows[..count]);
    runs
}

// Every run behind them stays.
#[tactic(auto, using(crate::specs::RowsLaws::over_is))]
pub fn back(runs: [Run; run::MOST], rows: &mut [Run])
    ensures { rows.new ≡ over runs rows.old }
{
    let count = rows.len().min(run::MOST);
    rows[..count].copy_from_slice(&runs[..count]);
}
