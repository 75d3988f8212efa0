// A segment's gap row, copied out of the lent gap rows and back.
ghost use Rattle.std.specs.Prelude.{◌≡◌, ◌+◌, ◌*◌, ◌≤◌, length};
ghost use Rattle.state.specs.Memory.{gap_row_cells, gap_row_of};
ghost use Rattle.state.specs.MemoryRows.{with_gap_row};

use sequence::CELLS;

// A segment's gap row, laid over another.
pub fn copy_row(rows: &[u32], segment: usize, row: &mut [u32; CELLS])
    requires { (gap_row_cells * segment + gap_row_cells ≤ length rows.now) × (length row.old ≡ gap_row_cells) }
    ensures { row.new ≡ gap_row_of rows.now segment }
{
    let at = CELLS * segment;
    row.copy_from_slice(&rows[at..at + CELLS]);
}

pub fn row_of(rows: &[u32], segment: usize) -> [u32; CELLS]
    requires { gap_row_cells * segment + gap_row_cells ≤ length rows.now }
    ensures { result ≡ gap_row_of rows.now segment }
{
    let mut row = [0u32; CELLS];
    copy_row(rows, segment, &mut row);
    row
}

pub fn put_row(rows: &mut [u32], segment: usize, row: &[u32; CELLS])
    requires { (gap_row_cells * segment + gap_row_cells ≤ length rows.old) × (length row.now ≡ gap_row_cells) }
    ensures { rows.new ≡ with_gap_row rows.old segment row.now }
{
    let at = CELLS * segment;
    rows[at..at + CELLS].copy_from_slice(row);
}
