// The gap row that a batch is judged on: a copy of its segment's, put back once every message has passed. The batch has found
// its segment, and hands it on.
ghost use Rattle.std.specs.Prelude.{◌≡◌, length};
ghost use Rattle.lookup.specs.Answers.{place_of};
ghost use Rattle.state.specs.Memory.{gap_row_cells};
ghost use Rattle.state.specs.MemoryRows.{with_gap_row_in};
ghost use Rattle.batch.specs.Scratch.{RowReady, ScratchRow};

use sequence::CELLS;

// The gap row of a segment, laid over another; where there is none, a row that nothing was taken in.
pub(crate) fn copy_row_in(rows: &[u32], segment: Option<usize>, row: &mut [u32; CELLS])
    requires { RowReady rows.now (place_of segment) × (length row.old ≡ gap_row_cells) }
    ensures { ScratchRow rows.now (place_of segment) row.new }
{
    match segment {
        Some(i) => state::copy_row(rows, i, row),
        None => sequence::start(row, 1),
    }
}

// The gap row of a segment, put back.
pub(crate) fn put_row_in(rows: &mut [u32], segment: Option<usize>, row: &[u32; CELLS])
    requires { RowReady rows.old (place_of segment) × (length row.now ≡ gap_row_cells) }
    ensures { rows.new ≡ with_gap_row_in rows.old row.now (place_of segment) }
{
    match segment {
        Some(i) => state::put_row(rows, i, row),
        None => {}
    }
}
