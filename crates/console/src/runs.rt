// Runs as text, `first-last`.
ghost use Rattle.std.specs.Prelude.{◌≤◌, length};

use std::io::{Result, Write};

// Each run, two cells, with a text before it and one behind it.
pub fn put_runs(out: &mut impl Write, before: &[u8], runs: &[u32], behind: &[u8]) -> Result<()> {
    for run in runs.chunks_exact(2) {
        let first = run[0];
        let last = run[1];
        out.write_all(before)?;
        write!(out, "{first}-{last}")?;
        out.write_all(behind)?;
    }
    Ok(())
}

// The cells that hold so many runs, two each, of those that there are.
pub fn runs_in(cells: &[u32], runs: usize) -> &[u32]
    ensures { length result.now ≤ length cells.now }
{
    &cells[..2 * runs.min(cells.len() / 2)]
}
