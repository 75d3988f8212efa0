// The runs of a row by their places.
ghost use Rattle.std.specs.Prelude.{◌≡◌, [], ◌∷◌, ◌++◌, ◌≤◌, ◌<◌, length};
ghost use Rattle.sequence.specs.Runs.{◌to◌, run};
ghost use Rattle.sequence.specs.Gaps.{most};
ghost use Rattle.sequence.specs.Changes.{with_runs};
ghost use Rattle.sequence.specs.Row.{cells, count, gaps_of, runs_of};
ghost use Rattle.sequence.specs.RowLaid.{laid};
ghost use Rattle.sequence.specs.Steps.{replaced, divided, Stands};

use crate::{CELLS, COUNT, HEAD, MOST};

// How many runs stand.
#[tactic(auto, using(crate::specs::RowLaws::length_runs))]
pub fn number(row: &[u32]) -> usize
    requires { length row.now ≡ cells }
    ensures { (result ≡ length (runs_of row.now)) × (result ≤ most) }
{
    (row[COUNT] as usize).min(MOST)
}

#[tactic(auto, using(crate::proofs::Cells::first_at))]
pub fn first(row: &[u32], i: usize) -> u32
    requires { Stands row.now i }
    ensures { result ≡ (run (runs_of row.now) i).first }
{
    row[HEAD + 2 * i]
}

#[tactic(auto, using(crate::proofs::Cells::last_at))]
pub fn last(row: &[u32], i: usize) -> u32
    requires { Stands row.now i }
    ensures { result ≡ (run (runs_of row.now) i).last }
{
    row[HEAD + 2 * i + 1]
}

// A run gets another first and last.
#[tactic(auto, using(crate::proofs::Cells::put_row))]
pub fn put(row: &mut [u32; CELLS], i: usize, first: u32, last: u32)
    requires { Stands row.old i × (count row.old ≤ most) }
    ensures { row.new ≡ replaced row.old i (first to last ∷ []) }
{
    let at = HEAD + 2 * i;
    row[at] = first;
    row[at + 1] = last;
}

// A run comes behind the others.
#[tactic(auto, using(crate::proofs::Cells::append_row))]
pub fn append(row: &mut [u32; CELLS], first: u32, last: u32)
    requires { (length row.old ≡ cells) × (length (runs_of row.old) < most) }
    ensures { row.new ≡ laid row.old (with_runs (gaps_of row.old) (runs_of row.old ++ (first to last ∷ []))) }
{
    let n = number(row);
    let at = HEAD + 2 * n;
    row[at] = first;
    row[at + 1] = last;
    row[COUNT] = (n + 1) as u32;
}

// A run goes, and those behind it take its room.
pub fn remove(row: &mut [u32; CELLS], i: usize)
    requires { Stands row.old i }
    ensures { row.new ≡ replaced row.old i [] }
{
    let n = number(row);
    let at = HEAD + 2 * i;
    row.copy_within(at + 2..HEAD + 2 * n, at);
    row[COUNT] = (n - 1) as u32;
}

// A run ends sooner, and another behind it has the rest from a number on.
pub fn divide(row: &mut [u32; CELLS], i: usize, end: u32, begin: u32)
    requires { Stands row.old i × (length (runs_of row.old) < most) }
    ensures { row.new ≡ replaced row.old i (divided (run (runs_of row.old) i) end begin) }
{
    let n = number(row);
    let at = HEAD + 2 * i;
    row.copy_within(at..HEAD + 2 * n, at + 2);
    row[at + 1] = end;
    row[at + 2] = begin;
    row[COUNT] = (n + 1) as u32;
}
