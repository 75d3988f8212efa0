// The checks of the state that is handed back: of every call after start but the writer.
ghost use Rattle.std.specs.Prelude.{◌≡◌, ◌*◌, ◌≤◌, length};
ghost use Rattle.laws.specs.Rules.{first_broken};
ghost use Rattle.pairs.specs.Lists.{lists};
ghost use Rattle.state.specs.Memory.{lends, gap_row_cells};
ghost use Rattle.state.specs.MemoryRows.{gap_rows_sound};
ghost use Rattle.state.specs.Answers.{checked_numbers, checked_by};
ghost use Rattle.state.specs.State.{state_rules, memory_rules, Asks};

use crate::refusal::Refusal;

// 15 for gap rows and then for records, by the numbers of cells lent.
pub fn check_memory(list: &[u8], spreads: &[u8], rows: usize, records: usize) -> Result<(), Refusal>
    ensures { checked_numbers result ≡ checked_by (first_broken (memory_rules (lists list.now spreads.now) rows records)) }
{
    let rows_wanted = sequence::CELLS * files::segments(list);
    if rows < rows_wanted {
        return Err(Refusal::Memory(rows_wanted));
    }
    let records_wanted = slots::records_wanted(list, spreads);
    if records < records_wanted {
        return Err(Refusal::Memory(records_wanted));
    }
    Ok(())
}

// The test behind 18, for the rows of so many segments.
fn rows_sound(rows: &[u32], segments: usize) -> bool
    requires { gap_row_cells * segments ≤ length rows.now }
    ensures { result ≡ gap_rows_sound segments rows.now }
{
    for i in 0..segments {
        let at = sequence::CELLS * i;
        if !sequence::sound(&rows[at..at + sequence::CELLS]) {
            return false;
        }
    }
    true
}

pub fn check_state(
    list: &[u8],
    spreads: &[u8],
    rows: &[u32],
    records: &[u64],
) -> Result<(), Refusal>
    ensures { checked_numbers result ≡ checked_by (first_broken (state_rules (lends (lists list.now spreads.now) rows.now records.now))) }
{
    if !contracts::header_sound(list, files::CONTRACTS) {
        return Err(Refusal::List);
    }
    if !pairs::spread_header_sound(list, spreads) {
        return Err(Refusal::List);
    }
    check_memory(list, spreads, rows.len(), records.len())?;
    if !rows_sound(rows, files::segments(list)) {
        return Err(Refusal::State);
    }
    Ok(())
}

// The state, and then the segment of a letter: 6 where it isn't listed.
pub fn check_segment(
    list: &[u8],
    spreads: &[u8],
    rows: &[u32],
    records: &[u64],
    letter: u8,
) -> Result<usize, Refusal>
    ensures { Asks (lends (lists list.now spreads.now) rows.now records.now) letter result }
{
    check_state(list, spreads, rows, records)?;
    lookup::segment_of(list, letter).ok_or(Refusal::Code(0))
}
