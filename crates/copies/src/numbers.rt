// Runs as numbers, each run's first and last in turn, and back.
ghost use Rattle.std.specs.Prelude.{◌≡◌};
ghost use Rattle.copies.specs.Rows.{flat};

use crate::run;
use crate::run::Run;

// Two numbers a run.
pub const NUMBERS: usize = 2 * run::MOST;

pub fn flat(runs: [Run; run::MOST]) -> [u32; NUMBERS]
    ensures { result ≡ flat runs }
{
    let mut numbers = [0u32; NUMBERS];
    for (i, run) in runs.iter().enumerate() {
        numbers[2 * i] = run.first;
        numbers[2 * i + 1] = run.last;
    }
    numbers
}

pub fn paired(numbers: [u32; NUMBERS]) -> [Run; run::MOST]
    ensures { flat result ≡ numbers }
{
    let mut runs = run::blanks();
    for (i, run) in runs.iter_mut().enumerate() {
        *run = Run {
            first: numbers[2 * i],
            last: numbers[2 * i + 1],
        };
    }
    runs
}
