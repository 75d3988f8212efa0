// How a number in text is read: one walk in the order of document 01's sentence. A place moves forward through the text: past the
// spaces, the minus, the digits, the point and its digits, the spaces, to the end. Each part stays while it may and hands the place
// on to the next; what the next does not expect is malformed.
ghost use Rattle.std.specs.Prelude.{◌≡◌, ◌+◌, ◌-◌, ◌^◌, ◌<◌, ◌≤◌, length, drop};
ghost use Rattle.scan.specs.Read.{read_as};
ghost use Rattle.scan.specs.Parts.{point_at, PassedSpaces, PassedDigits, Unsigned, UnsignedBehind};

use crate::units;
use decimal::{FieldFault, Held, Kind};

const SPACE: u8 = b' ';

const MINUS: u8 = b'-';

const POINT: u8 = b'.';

// How far the walk has come, and the amount read up to there: it counts the place of the last digit read.
#[derive(Clone, Copy)]
pub struct Walked {
    pub at: usize,
    pub amount: u64,
}

// What a text is as a number of a kind: any width, any kind whose largest amount a cell can hold.
// Kept: the steps require of the kind what `read` does: a `Kind` that promised it would be asked of the writer too, which takes any.
pub fn read(text: &[u8], kind: Kind) -> Result<Held, FieldFault>
    requires { kind.most + 1 < 2 ^ 64 }
    ensures { result ≡ read_as kind text.now }
{
    // Spaces; all spaces is "none".
    let first = spaces(text, 0);
    if text.len() <= first {
        return Ok(Held::Nothing);
    }
    // At most one minus, where the kind has a sign.
    if kind.signed && text[first] == MINUS {
        return unsigned(text, first + 1, kind).map(units::below_zero);
    }
    unsigned(text, first, kind)
}

// Behind the sign, or where there is none: the number without it.
fn unsigned(text: &[u8], first: usize, kind: Kind) -> Result<Held, FieldFault>
    requires within { first ≤ length text.now }
    requires small { kind.most + 1 < 2 ^ 64 }
    ensures { Unsigned kind text.now first result }
{
    // One or more digits.
    let whole = digits(text, first, 0);
    let point = whole.at;
    if point == first {
        return Err(FieldFault::Malformed);
    }
    // Optionally a point, and then one or more digits.
    if !point_at(text, point, kind.places) {
        return behind(text, point, whole.amount, 0, kind);
    }
    let tenths = point + 1;
    let fraction = digits(text, tenths, whole.amount);
    let end = fraction.at;
    if end == tenths {
        return Err(FieldFault::Malformed);
    }
    behind(text, end, fraction.amount, end - tenths, kind)
}

// Past the spaces.
fn spaces(text: &[u8], from: usize) -> usize
    requires { from ≤ length text.now }
    ensures { PassedSpaces text.now from result }
{
    for at in from..text.len() {
        if text[at] != SPACE {
            return at;
        }
    }
    text.len()
}

// Past the digits, each of them one more behind the amount.
fn digits(text: &[u8], from: usize, before: u64) -> Walked
    requires { from ≤ length text.now }
    ensures { PassedDigits text.now from before result }
{
    let mut amount = before;
    for at in from..text.len() {
        let d = units::digit(text[at]);
        if d > 9 {
            return Walked { at, amount };
        }
        if units::is_full(amount, d) {
            return over(text, at + 1);
        }
        amount = amount * 10 + d;
    }
    Walked {
        at: text.len(),
        amount,
    }
}

// Past the other digits of an amount over the ceiling.
fn over(text: &[u8], from: usize) -> Walked
    requires { from ≤ length text.now }
    ensures { PassedDigits text.now from (2 ^ 64 - 1) result }
{
    for at in from..text.len() {
        if units::digit(text[at]) > 9 {
            return Walked {
                at,
                amount: units::CEILING,
            };
        }
    }
    Walked {
        at: text.len(),
        amount: units::CEILING,
    }
}

// Whether a point stands here, where the kind has one.
fn point_at(text: &[u8], at: usize, places: usize) -> bool
    ensures { result ≡ point_at places text.now at }
{
    at < text.len() && places != 0 && text[at] == POINT
}

// Behind the last digit: spaces up to the end.
fn behind(
    text: &[u8],
    from: usize,
    amount: u64,
    digits: usize,
    kind: Kind,
) -> Result<Held, FieldFault>
    requires within { from ≤ length text.now }
    requires small { kind.most + 1 < 2 ^ 64 }
    ensures { UnsignedBehind kind amount digits (drop from text.now) result }
{
    let end = spaces(text, from);
    if end < text.len() {
        return Err(FieldFault::Malformed);
    }
    units::ranged(amount, digits, kind)
}
