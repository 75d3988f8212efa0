ghost use Rattle.std.specs.Prelude.{◌≡◌};
ghost use Rattle.accumulator.specs.Accumulator.{bit_step, byte_step};

const POLY: u16 = 0x1021;

// One bit of the data: the accumulator doubled in sixteen bits, and POLY where the bit that leaves differs from it.
fn bit_step(acc: u16, bit: u16) -> u16
    ensures { result ≡ bit_step acc bit }
{
    let doubled = std::num::wrapping_add_u16(acc, acc);
    if acc >> 15 == bit {
        doubled
    } else {
        doubled ^ POLY
    }
}

// The bits of one byte, highest first. It counts up: so the compiler sees the checksum and makes its table.
pub fn byte_step(acc: u16, byte: u8) -> u16
    ensures { result ≡ byte_step acc byte }
{
    let mut a = acc;
    let mut d = (byte as u16) * 256;
    for k in 0..8usize {
        a = bit_step(a, d >> 15);
        d = std::num::wrapping_add_u16(d, d);
    }
    a
}
