// A batch: judged whole on scratch memory, and applied only where every message has passed.
ghost use Rattle.std.specs.Prelude.{◌≡◌, ◌++◌, length, ◌≤◌};
ghost use Rattle.laws.specs.Rules.{first_broken};
ghost use Rattle.lookup.specs.Answers.{place_of};
ghost use Rattle.pairs.specs.Lists.{lists};
ghost use Rattle.state.specs.Memory.{lends};
ghost use Rattle.state.specs.Answers.{checked_numbers, checked_by};
ghost use Rattle.state.specs.State.{state_rules};
ghost use Rattle.batch.specs.Batch.{batch_rules};
ghost use Rattle.slots.specs.Slots.{records_wanted};
ghost use Rattle.turns.specs.Acts.{InFront};
ghost use Rattle.batch.specs.Promises.{JudgedBatch, TookBatch};
ghost use Rattle.batch.specs.Scratch.{DataReady, JudgedData, TookData};
ghost use Rattle.stores.specs.Stores.{Room};

use crate::scratch;
use slots::Fronts;
use state::{Judged, Refusal};

// The bytes of flag, data size and number of messages.
const FRONT: usize = 5;

const MOST_DATA: usize = 32767;

// The bytes of FN's level 1 update, the shortest.
const LEAST_UPDATE: usize = 204;

// The updates whose stores find room in the scratch memory of a short batch, and of a longer one.
const FEW: usize = 4;

const SOME: usize = 24;

// The updates that the longest data can hold.
const MOST: usize = MOST_DATA / LEAST_UPDATE;

// Data under so many bytes holds a few updates at most, or some.
const SOME_DATA: usize = (FEW + 1) * LEAST_UPDATE;

const MANY_DATA: usize = (SOME + 1) * LEAST_UPDATE;

// Under 5 bytes (1), flag (2, 3), the rest of 1, no messages (4).
fn check(batch: &[u8]) -> Result<(), Refusal>
    ensures { checked_numbers result ≡ checked_by (first_broken (batch_rules batch.now)) }
{
    if batch.len() < FRONT {
        return Err(Refusal::Size);
    }
    let flag = wire::u8_at(batch, 0);
    if flag == 0 {
        return Err(Refusal::Packed);
    }
    if 1 < flag {
        return Err(Refusal::Flag);
    }
    let size = wire::u16_at(batch, 1) as usize;
    if MOST_DATA < size {
        return Err(Refusal::Size);
    }
    if batch.len() != size + FRONT {
        return Err(Refusal::Size);
    }
    if wire::u16_at(batch, 3) == 0 {
        return Err(Refusal::Count);
    }
    Ok(())
}

// The state, and then the batch before its messages.
fn check_all(
    list: &[u8],
    spreads: &[u8],
    rows: &[u32],
    records: &[u64],
    batch: &[u8],
) -> Result<(), Refusal>
    ensures { checked_numbers result ≡ checked_by (first_broken (state_rules (lends (lists list.now spreads.now) rows.now records.now) ++ batch_rules batch.now)) }
{
    state::check_state(list, spreads, rows, records)?;
    check(batch)
}

// Where a segment's records begin.
fn fronts_in(list: &[u8], spreads: &[u8], segment: Option<usize>) -> Fronts
    ensures { InFront (lists list.now spreads.now) (place_of segment) result }
{
    match segment {
        Some(i) => slots::fronts_of(list, spreads, i),
        None => Fronts {
            contracts: 0,
            pairs: 0,
        },
    }
}

// The messages, on scratch memory that has no room for a store.
fn judge_data(list: &[u8], spreads: &[u8], rows: &[u32], data: &[u8], count: usize) -> Judged
    requires { DataReady (lists list.now spreads.now) rows.now count }
    ensures { JudgedData (lists list.now spreads.now) rows.now «data».now count result }
{
    let letter = head::segment_letter_of(data);
    let segment = lookup::segment_of(list, letter);
    let fronts = fronts_in(list, spreads, segment);
    let mut row = [0u32; sequence::CELLS];
    scratch::copy_row_in(rows, segment, &mut row);
    let mut stores = [0u64; 1];
    let turn = turns::judge_messages(
        list,
        spreads,
        letter,
        segment,
        fronts,
        &mut row,
        &mut stores,
        data,
        count,
    );
    turn.answer
}

pub fn judge(list: &[u8], spreads: &[u8], rows: &[u32], records: &[u64], batch: &[u8]) -> Judged
    ensures { JudgedBatch (lends (lists list.now spreads.now) rows.now records.now) batch.now result }
{
    match check_all(list, spreads, rows, records, batch) {
        Err(refusal) => Judged::Refused(refusal, 0),
        Ok(()) => {
            let count = wire::u16_at(batch, 3) as usize;
            judge_data(list, spreads, rows, &batch[FRONT..], count)
        }
    }
}

// The messages, on scratch memory with room for their stores. Nothing lent is written before the last message has passed.
fn take_on(
    list: &[u8],
    spreads: &[u8],
    rows: &mut [u32],
    records: &mut [u64],
    stores: &mut [u64],
    data: &[u8],
    count: usize,
) -> Judged
    requires { DataReady (lists list.now spreads.now) rows.old count × (records_wanted (lists list.now spreads.now) ≤ length records.old) × Room (length stores.old) (length «data».now) }
    ensures { TookData (lends (lists list.now spreads.now) rows.old records.old) «data».now count result (lends (lists list.now spreads.now) rows.new records.new) }
{
    let letter = head::segment_letter_of(data);
    let segment = lookup::segment_of(list, letter);
    let fronts = fronts_in(list, spreads, segment);
    let mut row = [0u32; sequence::CELLS];
    scratch::copy_row_in(rows, segment, &mut row);
    let turn = turns::judge_messages(
        list, spreads, letter, segment, fronts, &mut row, stores, data, count,
    );
    let answer = turn.answer;
    let kept = turn.kept;
    if let Judged::Accepted(_, _, _, _) = answer {
        scratch::put_row_in(rows, segment, &row);
        stores::make_all(records, stores, kept);
    }
    answer
}

// Scratch memory is cleared before it is used, so a batch gets the less the shorter it is, and one too short for an update, as
// heartbeats are sent, has no room for a store.
fn take_data(
    list: &[u8],
    spreads: &[u8],
    rows: &mut [u32],
    records: &mut [u64],
    data: &[u8],
    count: usize,
) -> Judged
    requires { DataReady (lists list.now spreads.now) rows.old count × (records_wanted (lists list.now spreads.now) ≤ length records.old) × (length «data».now ≤ 32767) }
    ensures { TookData (lends (lists list.now spreads.now) rows.old records.old) «data».now count result (lends (lists list.now spreads.now) rows.new records.new) }
{
    if data.len() < LEAST_UPDATE {
        let mut none = [0u64; 1];
        return take_on(list, spreads, rows, records, &mut none, data, count);
    }
    if data.len() < SOME_DATA {
        let mut few = [0u64; FEW * stores::STORE];
        return take_on(list, spreads, rows, records, &mut few, data, count);
    }
    if data.len() < MANY_DATA {
        let mut some = [0u64; SOME * stores::STORE];
        return take_on(list, spreads, rows, records, &mut some, data, count);
    }
    let mut most = [0u64; MOST * stores::STORE];
    take_on(list, spreads, rows, records, &mut most, data, count)
}

pub fn take(
    list: &[u8],
    spreads: &[u8],
    rows: &mut [u32],
    records: &mut [u64],
    batch: &[u8],
) -> Judged
    ensures { TookBatch (lends (lists list.now spreads.now) rows.old records.old) batch.now result (lends (lists list.now spreads.now) rows.new records.new) }
{
    match check_all(list, spreads, rows, records, batch) {
        Err(refusal) => Judged::Refused(refusal, 0),
        Ok(()) => {
            let count = wire::u16_at(batch, 3) as usize;
            take_data(list, spreads, rows, records, &batch[FRONT..], count)
        }
    }
}
