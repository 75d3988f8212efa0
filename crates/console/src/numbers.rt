// Numbers of what was read, big endian, each as wide as the cells that they go to. Behind the end they are 0.
ghost use Rattle.std.specs.Prelude.{◌≡◌, ℕ, ◌*◌, ◌+◌, ◌≤◌, ◌<◌, List, length, slice_index_or};
ghost use Rattle.wire.specs.Number.{number_at};

// A cell's number, where it is a byte or more wide.
pub trait Cell {
    const BYTES: u8;

    ghost BYTES: { ℕ };

    // The number that stands at a place.
    ghost number_there: { List ℕ → ℕ → Self };

    fn read(bytes: &[u8], at: usize) -> Self
        ensures { result ≡ number_there bytes.now at };
}

impl Cell for u8 {
    const BYTES: u8 = 1;

    ghost BYTES = { 1 };

    ghost number_there = { number_at 1 };

    fn read(bytes: &[u8], at: usize) -> u8 {
        wire::u8_at(bytes, at)
    }
}

impl Cell for u32 {
    const BYTES: u8 = 4;

    ghost BYTES = { 4 };

    ghost number_there = { number_at 4 };

    fn read(bytes: &[u8], at: usize) -> u32 {
        wire::u32_at(bytes, at)
    }
}

impl Cell for u64 {
    const BYTES: u8 = 8;

    ghost BYTES = { 8 };

    ghost number_there = { number_at 8 };

    fn read(bytes: &[u8], at: usize) -> u64 {
        wire::u64_at(bytes, at)
    }
}

pub fn cells_at<C: Cell + Copy>(bytes: &[u8], at: usize, cells: &mut [C])
    requires { (at ≤ 65535) × (length cells.old ≤ 65535) }
    ensures { (i : ℕ) (d : C) → i < length cells.new → slice_index_or cells.new i d ≡ C.number_there bytes.now (at + C.BYTES * i) }
{
    let mut place = at;
    for cell in cells.iter_mut() {
        *cell = C::read(bytes, place);
        place += C::BYTES as usize;
    }
}
