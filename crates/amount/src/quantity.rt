// Numbers in text: a quantity.
ghost use Rattle.std.specs.Prelude.{◌≡◌, false};
ghost use Rattle.std.proofs.Common.{lit<};
ghost use Rattle.decimal.specs.Kinds.{quantity};

use crate::amount::Amount;
use decimal::Kind;

// A count of contracts or units.
#[derive(Clone, Copy)]
pub struct Quantity(pub u64);

impl Quantity {
    pub const PLACES: usize = 0;

    pub const MAX: u64 = 999_999_999_999;

    pub const ZERO: Quantity = Quantity(0);

    // Kept: each kind has its constants and its constructor, so that no call takes one kind for another.
    pub fn of(units: u64) -> Self
        ensures { result.0 ≡ units }
    {
        Quantity(units)
    }
}

impl Amount for Quantity {
    const KIND: Kind = Kind {
        places: Quantity::PLACES,
        most: Quantity::MAX,
        signed: false,
    };

    ghost KIND = { quantity };

    ghost below = { λ _. false };

    ghost units = { λ amount. amount.0 };

    fn counted(self) -> (bool, u64) {
        (false, self.0)
    }

    ghost small = { lit< tt };
}
