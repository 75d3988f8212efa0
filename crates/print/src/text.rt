// The writer of numbers in text: the shortest text, spaces in front. A field is written only once the text is known to fit.
ghost use Rattle.std.specs.Prelude.{◌≡◌, ◌+◌, ◌/◌, ◌%◌, ◌^◌, ◌≤◌, ◌<◌, length};
ghost use Rattle.decimal.specs.Denotes.{sign};
ghost use Rattle.print.specs.Write.{written_as, Wrote, in_field, signed_text, blank_text, size};
ghost use Rattle.print.specs.WriteSteps.{Stripped, digits_in, behind_in, whole_in};

use decimal::{FieldFault, Kind};

// So many units of a kind with so many places behind the point.
#[derive(Clone, Copy)]
struct Decimal {
    units: u64,
    places: usize,
}

// "None" is all spaces.
pub fn blank(field: &mut [u8])
    ensures { field.new ≡ blank_text (length field.old) }
{
    field.fill(b' ');
}

// The same amount with no needless zero behind the point.
fn stripped(units: u64, places: usize) -> Decimal
    ensures { Stripped places units result.places result.units }
{
    let mut n = units;
    for left in (0..places).rev() {
        if n % 10 != 0 {
            return Decimal {
                units: n,
                places: left + 1,
            };
        }
        n /= 10;
    }
    Decimal {
        units: n,
        places: 0,
    }
}

// What stands before the point.
fn whole(units: u64, places: usize) -> u64
    ensures { result ≡ units / 10 ^ places }
{
    let mut n = units;
    for _ in 0..places {
        n /= 10;
    }
    n
}

// How many digits a number has.
fn size(n: u64) -> usize
    ensures { result ≡ size n }
{
    n.max(1).ilog10() as usize + 1
}

// How many characters the sign and the digits of a number take.
fn front_size(minus: bool, n: u64) -> usize
    ensures { result ≡ length (sign minus) + size n }
{
    let digits = size(n);
    if minus { digits + 1 } else { digits }
}

// The last digits of a number, as many as there is room for.
fn put_digits(n: u64, field: &mut [u8])
    ensures { field.new ≡ digits_in n (length field.old) }
{
    let mut left = n;
    for i in (0..field.len()).rev() {
        field[i] = b'0' + (left % 10) as u8;
        left /= 10;
    }
}

// A minus or a point, and behind it the last digits of a number, as many as there is room for.
fn put_behind(first: u8, n: u64, field: &mut [u8])
    requires { 0 < length field.old }
    ensures { field.new ≡ behind_in first n (length field.old) }
{
    put_digits(n, field);
    field[0] = first;
}

// The sign and the last digits of a number, `count` characters, and spaces in front.
fn put_whole(minus: bool, n: u64, count: usize, field: &mut [u8])
    requires { (length (sign minus) ≤ count) × (count ≤ length field.old) }
    ensures { field.new ≡ whole_in minus n count (length field.old) }
{
    let at = field.len() - count;
    blank(&mut field[..at]);
    if minus {
        put_behind(b'-', n, &mut field[at..]);
        return;
    }
    put_digits(n, &mut field[at..]);
}

// A number behind its sign, with so many digits behind the point, the last of them not zero.
fn lay(minus: bool, n: u64, behind: usize, field: &mut [u8]) -> Result<(), FieldFault>
    requires { 0 < behind → 0 < n % 10 }
    ensures { Wrote (in_field (length field.old) (signed_text minus behind n)) field.old result field.new }
{
    let front = whole(n, behind);
    let count = front_size(minus, front);
    let width = field.len();
    if width < count {
        return Err(FieldFault::OutOfRange);
    }
    if behind == 0 {
        put_whole(minus, front, count, field);
        return Ok(());
    }
    if width - count <= behind {
        return Err(FieldFault::OutOfRange);
    }
    let point = width - behind - 1;
    let (before, from_point) = field.split_at_mut(point);
    put_whole(minus, front, count, before);
    put_behind(b'.', n, from_point);
    Ok(())
}

// So many units of any kind, below zero or not. Minus zero is zero. The text fills the field, or 01's refusal 12 and the field is as
// it was.
pub fn write(below: bool, units: u64, kind: Kind, field: &mut [u8]) -> Result<(), FieldFault>
    ensures { Wrote (written_as kind (length field.old) below units) field.old result field.new }
{
    let minus = below && units != 0;
    if minus && !kind.signed {
        return Err(FieldFault::OutOfRange);
    }
    if kind.most < units {
        return Err(FieldFault::OutOfRange);
    }
    let bare = stripped(units, kind.places);
    lay(minus, bare.units, bare.places, field)
}
