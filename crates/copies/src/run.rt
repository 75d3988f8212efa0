// A run of missing numbers, and how many of them a call looks at.
ghost use Rattle.std.specs.Prelude.{◌≡◌};
ghost use Rattle.copies.specs.Rows.{blanks};

#[derive(Clone, Copy)]
pub struct Run {
    pub first: u32,
    pub last: u32,
}

// The runs of a gap row.
pub const ROW: usize = sequence::CELLS / 2;

// The runs of the gap rows of as many segments as a list may have.
pub const MOST: usize = ROW * contracts::MOST_SEGMENTS;

pub fn blanks() -> [Run; MOST]
    ensures { result ≡ blanks }
{
    [Run { first: 0, last: 0 }; MOST]
}
