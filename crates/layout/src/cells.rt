ghost use Rattle.std.specs.Prelude.{◌≡◌};
ghost use Rattle.layout.specs.Cells.{sided, side_in, held_in, Small, cell_of, session_cell, session_in, byte_in};
ghost use Rattle.layout.specs.Plain.{value_of, held_of};

use decimal::Held;
use forms::Session;

// What a cell holds for "none".
pub const NONE: u64 = 0xffff_ffff_ffff_ffff;

// The minus of a cell, where its row has a sign.
const MINUS: u64 = 0x8000_0000_0000_0000;

// The value of an amount that has none of its own: it is as far out of every kind's range.
const NO_ROOM: u64 = NONE - 1;

// Minus zero is zero.
pub fn sided(below: bool, units: u64) -> Held
    ensures { result ≡ sided below units }
{
    if below && units != 0 {
        Held::Below(units)
    } else {
        Held::Units(units)
    }
}

// What a cell means where its row has a sign.
fn side_in(cell: u64) -> Held
    ensures { result ≡ side_in cell }
{
    if cell < MINUS {
        Held::Units(cell)
    } else {
        sided(true, cell - MINUS)
    }
}

pub fn held_in(signed: bool, cell: u64) -> Held
    ensures { result ≡ held_in signed cell }
{
    match cell {
        NONE => Held::Nothing,
        _ if signed => side_in(cell),
        _ => Held::Units(cell),
    }
}

// The number that a value stands for. Today that is what a cell of the same bits holds.
pub fn held_of(signed: bool, value: u64) -> Held
    ensures { result ≡ held_of signed value }
{
    held_in(signed, value)
}

// The cell of a number that was read.
pub fn cell_of(held: Held) -> u64
    requires { Small held }
    ensures { result ≡ cell_of held }
{
    match held {
        Held::Nothing => NONE,
        Held::Units(units) => units,
        Held::Below(units) => MINUS + units,
    }
}

// All ones is no amount's value; and where the row has a sign, no amount has the minus.
fn units_value(signed: bool, units: u64) -> u64
    ensures { result ≡ value_of signed (Held.Units units) }
{
    let has_none = if signed {
        MINUS <= units
    } else {
        units == NONE
    };
    if has_none { NO_ROOM } else { units }
}

// Any number's value, in range or not.
pub fn value_of(signed: bool, held: Held) -> u64
    ensures { result ≡ value_of signed held }
{
    match held {
        Held::Nothing => NONE,
        Held::Units(units) => units_value(signed, units),
        Held::Below(units) if units < MINUS - 1 => MINUS + units,
        Held::Below(_) => NO_ROOM,
    }
}

// The cell of a session, and the session that any cell means.
pub fn session_cell(session: Session) -> u64
    ensures { result ≡ session_cell session }
{
    u64::from(matches!(session, Session::PreOpen))
}

pub fn session_in(cell: u64) -> Session
    ensures { result ≡ session_in cell }
{
    match cell {
        1 => Session::PreOpen,
        _ => Session::Normal,
    }
}

// A letter's byte; a cell above 255 holds none.
pub fn byte_in(cell: u64) -> u8
    ensures { result ≡ byte_in cell }
{
    u8::try_from(cell).unwrap_or(0)
}
