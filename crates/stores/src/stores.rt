// The stores of a batch's updates: kept on scratch memory while its messages are judged, made once all have passed.
ghost use Rattle.std.specs.Prelude.{◌≡◌, suc, ◌+◌, ◌*◌, ◌≤◌, ◌<◌, length};
ghost use Rattle.std.proofs.lemmas.List.Edits.{sets};
ghost use Rattle.forms.specs.Forms.{rows_of, subject_of, key_rows_of};
ghost use Rattle.forms.specs.Sizes.{key_row_count, pair_row_count};
ghost use Rattle.slots.specs.Places.{record_of};
ghost use Rattle.stores.specs.Stores.{store_cells, StoreKept, Near, KeptFor, Fits, AllFit, stored_at, made_of, made};

use layout::{Form, Item, KEY_ROWS, Level, MOST_ROWS, PAIR_ROWS, Subject};
use slots::Fronts;

// The cells of a store: its record's place, how many cells the record has, and those: at most as many as a contract's level 2 has.
pub const STORE: usize = 2 + slots::CONTRACT_TWO;

fn put(cells: &mut [u64], at: usize, part: &[u64])
    requires { at + length part.now ≤ length cells.old }
    ensures { cells.new ≡ sets cells.old at part.now }
{
    cells[at..at + part.len()].copy_from_slice(part);
}

// The record of a contract's update behind its number: the session, the market type, the time stamp, which some have not, and the rest.
fn put_contract(stores: &mut [u64], at: usize, form: Form, cells: &[u64; MOST_ROWS])
    requires { (suc key_row_count ≤ length (rows_of form)) × (at + length (record_of Item.Contract form cells.now) ≤ length stores.old) }
    ensures { stores.new ≡ sets stores.old at (record_of Item.Contract form cells.now) }
{
    let end = rows::count_of(form);
    let first = KEY_ROWS + 1;
    stores[at] = layout::session_cell(layout::session_of(form));
    stores[at + 1] = cells[KEY_ROWS];
    let mut rest = at + 2;
    if !layout::is_stamped(form) {
        stores[rest] = layout::NONE;
        rest += 1;
    }
    put(stores, rest, &cells[first..end]);
}

// That of a pair's update: the rows behind its key.
fn put_pair(stores: &mut [u64], at: usize, form: Form, cells: &[u64; MOST_ROWS])
    requires { (pair_row_count ≤ length (rows_of form)) × (at + length (record_of Item.Pair form cells.now) ≤ length stores.old) }
    ensures { stores.new ≡ sets stores.old at (record_of Item.Pair form cells.now) }
{
    let end = rows::count_of(form);
    put(stores, at, &cells[PAIR_ROWS..end]);
}

fn put_record(stores: &mut [u64], at: usize, item: Item, form: Form, cells: &[u64; MOST_ROWS])
    requires { (suc (key_rows_of item) ≤ length (rows_of form)) × (at + length (record_of item form cells.now) ≤ length stores.old) }
    ensures { stores.new ≡ sets stores.old at (record_of item form cells.now) }
{
    match item {
        Item::Contract => put_contract(stores, at, form, cells),
        Item::Pair => put_pair(stores, at, form, cells),
    }
}

// The store of an update that was taken, behind those kept; where there is no room it isn't kept.
fn keep(
    stores: &mut [u64],
    kept: usize,
    slot: usize,
    form: Form,
    item: Item,
    level: Level,
    number: u32,
    cells: &[u64; MOST_ROWS],
) -> usize
    requires { (store_cells * kept ≤ length stores.old) × (subject_of form ≡ Subject.Of item level) }
    ensures { StoreKept stores.old kept slot number (record_of item form cells.now) result stores.new }
{
    let at = STORE * kept;
    if stores.len() - at < STORE {
        return kept;
    }
    stores[at] = slot as u64;
    stores[at + 1] = slots::level_cells(item, level) as u64;
    stores[at + 2] = number as u64;
    put_record(stores, at + 3, item, form, cells);
    kept + 1
}

// By what the update tells of: the records of its segment begin at `fronts`.
// Kept: how many stores are kept stands beside their memory, which is the batch's own array of one of five sizes, lent as a slice: a
// struct of the two would be lent on in the same places and name both in each clause.
pub fn keep_update(
    stores: &mut [u64],
    kept: usize,
    fronts: Fronts,
    place: usize,
    form: Form,
    number: u32,
    cells: &[u64; MOST_ROWS],
) -> usize
    requires { (store_cells * kept ≤ length stores.old) × Near fronts × (place < 65536) }
    ensures { KeptFor (subject_of form) form stores.old kept fronts place number cells.now result stores.new }
{
    match layout::subject_of(form) {
        Subject::Nothing => kept,
        Subject::Of(item, level) => {
            let slot = slots::record_at(fronts, item, place, level);
            keep(stores, kept, slot, form, item, level, number, cells)
        }
    }
}

// A late update doesn't replace a newer one.
fn store(records: &mut [u64], at: usize, update: &[u64])
    requires { (0 < length update.now) × (at + length update.now ≤ length records.old) }
    ensures { records.new ≡ stored_at at update.now records.old }
{
    let number = update[0];
    if records[at] < number {
        put(records, at, update);
    }
}

fn make(records: &mut [u64], kept: &[u64])
    requires { (length kept.now ≡ store_cells) × Fits (length records.old) kept.now }
    ensures { records.new ≡ made_of kept.now records.old }
{
    let at = kept[0] as usize;
    let end = 2 + kept[1] as usize;
    store(records, at, &kept[2..end]);
}

// The first `kept` stores, in turn.
pub fn make_all(records: &mut [u64], stores: &[u64], kept: usize)
    requires { (store_cells * kept ≤ length stores.now) × AllFit (length records.old) kept stores.now }
    ensures { records.new ≡ made kept stores.now records.old }
{
    for i in 0..kept {
        let at = STORE * i;
        make(records, &stores[at..at + STORE]);
    }
}
