// A start: each listed segment's gap row begins, and every record is cleared.
ghost use Rattle.std.specs.Prelude.{◌≡◌, ◌++◌, ◌*◌, ◌≤◌, length, drop, replicate};
ghost use Rattle.pairs.specs.Lists.{lists};
ghost use Rattle.laws.specs.Rules.{first_broken};
ghost use Rattle.state.specs.Memory.{lends, gap_row_cells};
ghost use Rattle.state.specs.Answers.{checked_numbers, checked_by};
ghost use Rattle.starting.specs.Start.{start_of, each_starts, start_rules};
ghost use Rattle.starting.specs.StartActs.{started_rows};
ghost use Rattle.starting.specs.StartPromises.{StartedBox};

use state::Refusal;

// A segment's start number; one that is missing counts as 0.
fn start_of(starts: &[u32], segment: usize) -> u32
    ensures { result ≡ start_of starts.now segment }
{
    starts.get(segment).copied().unwrap_or(0)
}

fn each_starts(starts: &[u32], segments: usize) -> bool
    ensures { result ≡ each_starts segments starts.now }
{
    (0..segments).all(|i| 0 < start_of(starts, i))
}

fn check_start(
    list: &[u8],
    spreads: &[u8],
    starts: &[u32],
    rows: usize,
    records: usize,
) -> Result<(), Refusal>
    ensures { checked_numbers result ≡ checked_by (first_broken (start_rules (lists list.now spreads.now) starts.now rows records)) }
{
    if !contracts::sound(list, files::CONTRACTS) {
        return Err(Refusal::List);
    }
    if !pairs::spreads_sound(list, spreads) {
        return Err(Refusal::List);
    }
    if !each_starts(starts, files::segments(list)) {
        return Err(Refusal::Numbering(0));
    }
    state::check_memory(list, spreads, rows, records)
}

fn begin_rows(starts: &[u32], rows: &mut [u32], segments: usize)
    requires { gap_row_cells * segments ≤ length rows.old }
    ensures { rows.new ≡ started_rows segments starts.now ++ drop (gap_row_cells * segments) rows.old }
{
    let mut row = [0u32; sequence::CELLS];
    for i in 0..segments {
        sequence::start(&mut row, start_of(starts, i));
        state::put_row(rows, i, &row);
    }
}

fn clear(records: &mut [u64], cells: usize)
    requires { cells ≤ length records.old }
    ensures { records.new ≡ replicate cells 0 ++ drop cells records.old }
{
    records[..cells].fill(0);
}

pub fn start(
    list: &[u8],
    spreads: &[u8],
    starts: &[u32],
    rows: &mut [u32],
    records: &mut [u64],
) -> Result<(), Refusal>
    ensures { StartedBox (lends (lists list.now spreads.now) rows.old records.old) starts.now result (lends (lists list.now spreads.now) rows.new records.new) }
{
    check_start(list, spreads, starts, rows.len(), records.len())?;
    begin_rows(starts, rows, files::segments(list));
    clear(records, slots::records_wanted(list, spreads));
    Ok(())
}
