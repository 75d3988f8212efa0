// Numbers in text: turnover.
ghost use Rattle.std.specs.Prelude.{◌≡◌, false};
ghost use Rattle.std.proofs.Common.{lit<};
ghost use Rattle.decimal.specs.Kinds.{turnover};

use crate::amount::Amount;
use decimal::Kind;

// A count of hundredths.
#[derive(Clone, Copy)]
pub struct Turnover(pub u64);

impl Turnover {
    pub const PLACES: usize = 2;

    pub const MAX: u64 = 999_999_999_999_999_999;

    pub const ZERO: Turnover = Turnover(0);

    // Kept: each kind has its constants and its constructor, so that no call takes one kind for another.
    pub fn of(units: u64) -> Self
        ensures { result.0 ≡ units }
    {
        Turnover(units)
    }
}

impl Amount for Turnover {
    const KIND: Kind = Kind {
        places: Turnover::PLACES,
        most: Turnover::MAX,
        signed: false,
    };

    ghost KIND = { turnover };

    ghost below = { λ _. false };

    ghost units = { λ amount. amount.0 };

    fn counted(self) -> (bool, u64) {
        (false, self.0)
    }

    ghost small = { lit< tt };
}
