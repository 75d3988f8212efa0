// Writing a message: whatever can refuse it is looked at before a byte of `out` is written.
ghost use Rattle.std.specs.Prelude.{◌≡◌, [], ◌∷◌, ◌++◌, ◌+◌, ◌≤◌, length, take};
ghost use Rattle.std.proofs.lemmas.List.Edits.{sets};
ghost use Rattle.laws.specs.Rules.{first_broken};
ghost use Rattle.forms.specs.Sizes.{most_data};
ghost use Rattle.state.specs.Answers.{checked_numbers, checked_by};
ghost use Rattle.writer.specs.Writer.{rows_rules, data_written, head_bytes, sum_written, end_byte, LaysRows, PutsMessage};
ghost use Rattle.writer.specs.WriterPromises.{WroteForm, WroteMessage, WroteSpread};

use layout::{BadRow, Form, Item, KEY_BYTES, Level, MOST_DATA, MOST_ROWS, Named, PAIR_BYTES, Sum};
use quote::Quote;
use spread::SpreadQuote;
use state::Refusal;

// Any two bytes.
#[derive(Clone, Copy)]
pub struct Code(pub u8, pub u8);

// The bytes before the data.
const HEAD: usize = 8;

const END: u8 = 13;

fn of_verdict(verdict: Result<(), BadRow>) -> Result<(), Refusal>
    ensures { checked_numbers result ≡ checked_by (first_broken (rows_rules verdict)) }
{
    match verdict {
        Ok(()) => Ok(()),
        Err(BadRow::Field(row)) => Err(Refusal::Field(0, row)),
        Err(BadRow::Range(row)) => Err(Refusal::Range(0, row)),
    }
}

// The rows of a form, the first bad one deciding: 11 and 12. A heartbeat has none.
fn lay_rows(
    form: Form,
    key: &[u8],
    values: &[u64; MOST_ROWS],
    data: &mut [u8],
) -> Result<(), Refusal>
    ensures { LaysRows (data_written (Some form) key.now values.now) «data».old result «data».new }
{
    of_verdict(compose::write_update(form, key, values, data))
}

fn put_head(code: Code, whole: u16, number: u32, out: &mut [u8])
    requires { 8 ≤ length out.old }
    ensures { out.new ≡ sets out.old 0 (head_bytes code whole number) }
{
    out[0] = code.0;
    out[1] = code.1;
    wire::put_u16(out, 2, whole);
    wire::put_u32(out, 4, number);
}

fn put_data(data: &[u8], long: usize, out: &mut [u8])
    requires { (long ≤ length «data».now) × (8 + long ≤ length out.old) }
    ensures { out.new ≡ sets out.old 8 (take long «data».now) }
{
    let end = HEAD + long;
    compose::put_front(&data[..long], &mut out[HEAD..end]);
}

// The two bytes of the sum as sent: heartbeats carry zero.
fn sum_of(sum: Sum, bytes: &[u8]) -> [u8; 2]
    ensures { result ≡ sum_written sum bytes.now }
{
    match sum {
        Sum::Zero => [0, 0],
        Sum::Right => checksum::sent(checksum::sum(bytes)),
        Sum::RightOrZero => checksum::sent(checksum::sum(bytes)),
    }
}

fn put_trailer(rule: Sum, at: usize, out: &mut [u8])
    requires { at + 3 ≤ length out.old }
    ensures { out.new ≡ sets out.old at (sum_written rule (take at out.old) ++ (end_byte ∷ [])) }
{
    let sum = sum_of(rule, &out[..at]);
    out[at] = sum[0];
    out[at + 1] = sum[1];
    out[at + 2] = END;
}

// Where there is room (15), with so many bytes of the data.
fn put_message(
    code: Code,
    number: u32,
    data: &[u8],
    long: usize,
    out: &mut [u8],
) -> Result<usize, Refusal>
    requires { (long ≤ most_data) × (long ≤ length «data».now) }
    ensures { PutsMessage code number (take long «data».now) out.old result out.new }
{
    let whole = long + layout::BARE;
    if out.len() < whole {
        return Err(Refusal::Memory(whole));
    }
    put_head(code, whole as u16, number, out);
    put_data(data, long, out);
    put_trailer(layout::sum_rule(code.0, code.1), HEAD + long, out);
    Ok(whole)
}

// A form's number (10), its rows, and then the message.
fn write_form(
    form: Form,
    code: Code,
    number: u32,
    key: &[u8],
    values: &[u64; MOST_ROWS],
    out: &mut [u8],
) -> Result<usize, Refusal>
    ensures { WroteForm (Some form) code number key.now values.now out.old result out.new }
{
    if !head::takes_number(Named::Form(form), number) {
        return Err(Refusal::Numbering(0));
    }
    let mut data = [0u8; MOST_DATA];
    lay_rows(form, key, values, &mut data)?;
    put_message(code, number, &data, layout::data_length(form), out)
}

// 6 for a code that is not in the table, and for those of pairs.
pub fn write_message(
    code: Code,
    level: Level,
    number: u32,
    key: &[u8; KEY_BYTES],
    quote: Quote,
    out: &mut [u8],
) -> Result<usize, Refusal>
    ensures { WroteMessage code level number key.now quote out.old result out.new }
{
    let chosen = layout::written_form(code.0, code.1, Item::Contract, level);
    let form = chosen.ok_or(Refusal::Code(0))?;
    let values = quote::values_of(form, quote);
    write_form(form, code, number, key, &values, out)
}

// 6 for every code but those of pairs.
pub fn write_spread(
    code: Code,
    level: Level,
    number: u32,
    pair: &[u8; PAIR_BYTES],
    quote: SpreadQuote,
    out: &mut [u8],
) -> Result<usize, Refusal>
    ensures { WroteSpread code level number pair.now quote out.old result out.new }
{
    let chosen = layout::written_form(code.0, code.1, Item::Pair, level);
    let form = chosen.ok_or(Refusal::Code(0))?;
    let values = spread::spread_values_of(form, quote);
    write_form(form, code, number, pair, &values, out)
}
