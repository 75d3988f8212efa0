// Numbers in text: a price difference.
ghost use Rattle.std.specs.Prelude.{◌≡◌};
ghost use Rattle.std.proofs.Common.{lit<};
ghost use Rattle.decimal.specs.Kinds.{difference};

use crate::amount::Amount;
use crate::price::Price;
use decimal::Kind;

// Whether below zero, and how many ten-millionths.
#[derive(Clone, Copy)]
pub struct Difference(pub bool, pub u64);

impl Difference {
    pub const PLACES: usize = Price::PLACES;

    pub const MAX: u64 = Price::MAX;

    pub const ZERO: Difference = Difference(false, 0);

    // Kept: each kind has its constants and its constructor, so that no call takes one kind for another.
    pub fn of(below: bool, units: u64) -> Self
        ensures { (result.0 ≡ below) × (result.1 ≡ units) }
    {
        Difference(below, units)
    }
}

impl Amount for Difference {
    const KIND: Kind = Kind {
        places: Difference::PLACES,
        most: Difference::MAX,
        signed: true,
    };

    ghost KIND = { difference };

    ghost below = { λ amount. amount.0 };

    ghost units = { λ amount. amount.1 };

    fn counted(self) -> (bool, u64) {
        (self.0, self.1)
    }

    ghost small = { lit< tt };
}
