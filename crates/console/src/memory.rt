// The runs of a segment, two cells each.
pub const RUN_CELLS: usize = 2 * sequence::MOST;
