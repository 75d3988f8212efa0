// Numbers in text: a price.
ghost use Rattle.std.specs.Prelude.{◌≡◌, false};
ghost use Rattle.std.proofs.Common.{lit<};
ghost use Rattle.decimal.specs.Kinds.{price};

use crate::amount::Amount;
use decimal::Kind;

// A count of ten-millionths.
#[derive(Clone, Copy)]
pub struct Price(pub u64);

impl Price {
    pub const PLACES: usize = 7;

    pub const MAX: u64 = 999_999_999_999_999_999;

    pub const ZERO: Price = Price(0);

    // Kept: each kind has its constants and its constructor, so that no call takes one kind for another.
    pub fn of(units: u64) -> Self
        ensures { result.0 ≡ units }
    {
        Price(units)
    }
}

impl Amount for Price {
    const KIND: Kind = Kind {
        places: Price::PLACES,
        most: Price::MAX,
        signed: false,
    };

    ghost KIND = { price };

    ghost below = { λ _. false };

    ghost units = { λ amount. amount.0 };

    fn counted(self) -> (bool, u64) {
        (false, self.0)
    }

    ghost small = { lit< tt };
}
