// A segment's gap row, as numbers: start, highest, number of runs, 0, then 64 runs of first and last.
#![tactic(auto)]

pub mod runs;

ghost use Rattle.std.specs.Prelude.{◌≡◌, true, length};
ghost use Rattle.sequence.specs.SoundTests.{sound_runs};
ghost use Rattle.sequence.specs.Row.{cells, gaps_of, runs_of};
ghost use Rattle.sequence.specs.RowLaid.{sound_gap_row};
ghost use Rattle.sequence.specs.Promises.{Began, WroteOff, ListedGaps};

// The numbers of a row, and how many runs it has room for.
pub const CELLS: usize = 132;

pub const MOST: usize = 64;

// Where a row has its start number, its highest, the number of its runs, and the first of them.
const START: usize = 0;

pub const HIGHEST: usize = 1;

pub(crate) const COUNT: usize = 2;

pub(crate) const HEAD: usize = 4;

// A run of missing numbers: its first and its last.
#[derive(Clone, Copy)]
pub struct Run {
    pub first: u32,
    pub last: u32,
}

// What a listing says of a row whose runs it has put in lent cells.
#[derive(Clone, Copy)]
pub struct GapsListed {
    pub highest: u32,
    pub runs: usize,
}

// 15: fewer cells are lent than are wanted.
#[derive(Clone, Copy)]
pub struct Short {
    pub wanted: usize,
}

// The runs of a row, from its start number up to highest.
#[tactic(auto, using(crate::specs::SoundLaws::sound_stop, crate::specs::SoundLaws::sound_end), unfolding(crate::specs::Row::gaps_of))]
fn sound_runs(row: &[u32]) -> bool
    requires { length row.now ≡ cells }
    ensures { result ≡ sound_runs (gaps_of row.now).start (runs_of row.now) (gaps_of row.now).highest }
{
    let highest = row[HIGHEST];
    let n = runs::number(row);
    let mut from = row[START] as u64;
    for i in 0..n {
        let first = runs::first(row, i);
        let last = runs::last(row, i);
        if (first as u64) < from {
            return false;
        }
        if last < first {
            return false;
        }
        if highest < last {
            return false;
        }
        from = last as u64 + 2;
    }
    true
}

// The test behind 18, for one row.
#[tactic(auto, using(crate::proofs::Cells::few_runs), unfolding(crate::specs::RowLaid::sound_gap_row, crate::specs::Row::gaps_of))]
pub fn sound(row: &[u32]) -> bool
    ensures { result ≡ sound_gap_row row.now }
{
    if row.len() != CELLS {
        return false;
    }
    if MOST < row[COUNT] as usize {
        return false;
    }
    let start = row[START];
    if start == 0 {
        return false;
    }
    if row[HIGHEST] < start - 1 {
        return false;
    }
    sound_runs(row)
}

// A segment starts: highest is one below its start number, nothing is missing, and every other number is 0.
#[tactic(auto, unfolding(crate::specs::RowLaid::laid))]
pub fn start(row: &mut [u32; CELLS], number: u32)
    ensures { Began number row.new }
{
    *row = [0u32; CELLS];
    row[START] = number;
    if number != 0 {
        row[HIGHEST] = number - 1;
    }
}

// The lowest run is removed, and answered; 17 where there is none.
#[tactic(auto, using(crate::proofs::Calls::wrote_off_lem))]
pub fn write_off(row: &mut [u32; CELLS]) -> Option<Run>
    ensures { WroteOff row.old result row.new }
{
    if runs::number(row) == 0 {
        return None;
    }
    let first = runs::first(row, 0);
    let last = runs::last(row, 0);
    runs::remove(row, 0);
    Some(Run { first, last })
}

// The runs are put in lent cells, two a run, where there are so many.
pub fn list(row: &[u32; CELLS], lent: &mut [u32]) -> Result<GapsListed, Short>
    ensures { ListedGaps row.now lent.old result lent.new }
{
    let n = runs::number(row);
    let wanted = 2 * n;
    if lent.len() < wanted {
        return Err(Short { wanted });
    }
    lent[..wanted].copy_from_slice(&row[HEAD..HEAD + wanted]);
    Ok(GapsListed {
        highest: row[HIGHEST],
        runs: n,
    })
}
