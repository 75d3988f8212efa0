// Numbers in text: what the type of every kind has.
ghost use Rattle.std.specs.Prelude.{◌≡◌, ℕ, Bool, ◌+◌, ◌^◌, ◌<◌, length};
ghost use Rattle.decimal.specs.declared.Kind.{Kind};
ghost use Rattle.scan.specs.Read.{read_as};
ghost use Rattle.print.specs.Write.{written_as, Wrote};

use decimal::{FieldFault, Held, Kind};

// An amount is so many of its kind's unit, below zero or not.
pub trait Amount: Copy {
    const KIND: Kind;

    ghost KIND: { Kind };

    ghost below: { Self → Bool };

    ghost units: { Self → ℕ };

    fn counted(self) -> (bool, u64)
        ensures { (result.0 ≡ below self) × (result.1 ≡ units self) };

    // The largest amount has a cell, and all ones is none.
    ghost small: { KIND.most + 1 < 2 ^ 64 };

    final fn read(text: &[u8]) -> Result<Held, FieldFault>
        ensures { result ≡ read_as KIND text.now }
    {
        scan::read(text, Self::KIND)
    }

    final fn write(self, field: &mut [u8]) -> Result<(), FieldFault>
        ensures { Wrote (written_as KIND (length field.old) (below self) (units self)) field.old result field.new }
    {
        let (below, units) = self.counted();
        print::write(below, units, Self::KIND, field)
    }
}
