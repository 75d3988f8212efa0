ghost use Rattle.std.specs.Prelude.{◌≡◌, ◌<◌, ◌≤◌, [], ◌∷◌, cond, length, IsTrue};
ghost use Rattle.forms.specs.Forms.{rows_of};
ghost use Rattle.forms.specs.Rows.{width_of, data_length};
ghost use Rattle.forms.specs.Sizes.{most_rows, most_data};
ghost use Rattle.compose.specs.Write.{text, malformed, key_text, held_text, row_text, PutsRow, over_front, write_rows, WritesRows, WritesUpdate};
ghost use Rattle.layout.specs.Cells.{key_used};

use amount::{Amount, Difference, FieldFault, Kind, Price, Quantity, Turnover};
use forms::{Form, MOST_DATA, MOST_ROWS, Row};
use layout::{BadRow, Held};

// As much of the text as there is room for, from the front.
pub fn put_front(text: &[u8], field: &mut [u8])
    ensures { field.new ≡ over_front text.now field.old }
{
    let n = text.len().min(field.len());
    field[..n].copy_from_slice(&text[..n]);
}

// A part of the key, where its bytes may be written.
fn put_key(key: &[u8], field: &mut [u8]) -> Result<(), FieldFault>
    ensures { PutsRow (key_text (length field.old) key.now) field.old result field.new }
{
    match key.get(..field.len()) {
        Some(part) if wire::all_printable(part) => {
            field.copy_from_slice(part);
            Ok(())
        }
        _ => Err(FieldFault::Malformed),
    }
}

// A letter, where it is one that the row takes.
fn put_letter(taken: bool, value: u64, field: &mut [u8]) -> Result<(), FieldFault>
    requires byte { IsTrue taken → value < 256 }
    requires one { length field.old ≡ 1 }
    ensures { PutsRow (cond taken (text (value ∷ [])) malformed) field.old result field.new }
{
    if !taken {
        return Err(FieldFault::Malformed);
    }
    field[0] = value as u8;
    Ok(())
}

// A number of a kind, or none.
fn put_number(held: Held, kind: Kind, field: &mut [u8]) -> Result<(), FieldFault>
    ensures { PutsRow (held_text kind (length field.old) held) field.old result field.new }
{
    match held {
        Held::Nothing => {
            amount::blank(field);
            Ok(())
        }
        Held::Units(units) => amount::write(false, units, kind, field),
        Held::Below(units) => amount::write(true, units, kind, field),
    }
}

// One row, from what is left of the key or from the row's value.
#[tactic(auto, unfolding(crate::specs::Write::row_text))]
fn put_row(row: Row, key: &[u8], value: u64, field: &mut [u8]) -> Result<(), FieldFault>
    requires { length field.old ≡ width_of row }
    ensures { PutsRow (row_text row key.now value) field.old result field.new }
{
    match row {
        Row::Key(_) => put_key(key, field),
        Row::MarketType(markets) => put_letter(layout::is_market(markets, value), value, field),
        Row::Status => put_letter(layout::is_status(value), value, field),
        Row::Price(_) => put_number(layout::held_of(false, value), Price::KIND, field),
        Row::Quantity(_) => put_number(layout::held_of(false, value), Quantity::KIND, field),
        Row::Turnover(_) => put_number(layout::held_of(false, value), Turnover::KIND, field),
        Row::Difference(_) => put_number(layout::held_of(true, value), Difference::KIND, field),
    }
}

// What a row takes of the key.
fn key_used(row: Row) -> usize
    ensures { result ≡ key_used row }
{
    match row {
        Row::Key(width) => width,
        _ => 0,
    }
}

// The rows in turn, each behind the bytes of the row before it. It knows no layout: rows are data.
fn write_rows(
    rows: &[Row],
    key: &[u8],
    values: &[u64; MOST_ROWS],
    bytes: &mut [u8; MOST_DATA],
) -> Result<(), BadRow>
    requires { (length rows.now ≤ most_rows) × (data_length rows.now ≤ most_data) }
    ensures { WritesRows (write_rows 0 rows.now key.now values.now) result bytes.new }
{
    let mut at = 0;
    let mut used = 0;
    for (i, row) in rows.iter().enumerate() {
        let end = at + forms::width_of(*row);
        put_row(*row, &key[used..], values[i], &mut bytes[at..end]).map_err(|fault| BadRow::of(
            fault, i,
        ))?;
        used += key_used(*row).min(key.len() - used);
        at = end;
    }
    Ok(())
}

// The rows of that form. The data is written once every row is known to be good.
pub fn write_update(
    form: Form,
    key: &[u8],
    values: &[u64; MOST_ROWS],
    data: &mut [u8],
) -> Result<(), BadRow>
    ensures { WritesUpdate (write_rows 0 (rows_of form) key.now values.now) «data».old result «data».new }
{
    let mut bytes = [0u8; MOST_DATA];
    write_rows(rows::rows_of(form), key, values, &mut bytes)?;
    put_front(&bytes[..forms::data_length(form)], data);
    Ok(())
}
