// What the digits of a number count, in the kind's unit.
ghost use Rattle.std.specs.Prelude.{◌≡◌, ◌+◌, ◌*◌, ◌^◌, ◌<◌, true};
ghost use Rattle.scan.specs.Read.{ranged, behind_sign};
ghost use Rattle.scan.specs.Parts.{cap, CountsAs, TellsOver};

use decimal::{FieldFault, Held, Kind};

// All ones, which is no amount's cell: what would be larger counts as this, so that no width overflows.
pub const CEILING: u64 = u64::MAX;

const TENTH: u64 = CEILING / 10;

// 0 to 9 for a digit's character, more for any other.
pub fn digit(c: u8) -> u64
    ensures { CountsAs c result }
{
    u64::from(c.wrapping_sub(b'0'))
}

// Whether the digit has no room behind the amount. Few amounts come near: the first test settles nearly all.
pub fn is_full(amount: u64, digit: u64) -> bool
    requires { digit < 10 }
    ensures { TellsOver (amount * 10 + digit) result }
{
    if amount < TENTH {
        return false;
    }
    if TENTH < amount {
        return true;
    }
    CEILING % 10 < digit
}

// The amount with so many noughts behind it.
fn filled(amount: u64, noughts: usize) -> u64
    ensures { cap result ≡ cap (amount * 10 ^ noughts) }
{
    let mut n = amount;
    for _ in 0..noughts {
        if is_full(n, 0) {
            return CEILING;
        }
        n *= 10;
    }
    n
}

// An amount that counts the place of the last of so many digits behind the point, in the kind's unit.
pub fn ranged(amount: u64, digits: usize, kind: Kind) -> Result<Held, FieldFault>
    requires { kind.most + 1 < 2 ^ 64 }
    ensures { result ≡ ranged kind amount digits }
{
    if digits > kind.places {
        return Err(FieldFault::OutOfRange);
    }
    let units = filled(amount, kind.places - digits);
    if units <= kind.most {
        Ok(Held::Units(units))
    } else {
        Err(FieldFault::OutOfRange)
    }
}

// What a number is behind a minus. Minus zero is zero.
pub fn below_zero(number: Held) -> Held
    ensures { result ≡ behind_sign true number }
{
    match number {
        Held::Nothing => Held::Nothing,
        Held::Units(0) => Held::Units(0),
        Held::Units(units) | Held::Below(units) => Held::Below(units),
    }
}
