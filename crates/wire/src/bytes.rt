ghost use Rattle.std.specs.Prelude.{◌≡◌};
ghost use Rattle.wire.specs.Bytes.{printable, all_printable};

const LOWEST: u8 = 32;

const HIGHEST: u8 = 126;

fn is_printable(byte: u8) -> bool
    ensures { result ≡ printable byte }
{
    (LOWEST..=HIGHEST).contains(&byte)
}

// Whether a key of these bytes may stand in a list or be written.
pub fn all_printable(bytes: &[u8]) -> bool
    ensures { result ≡ all_printable bytes.now }
{
    bytes.iter().all(|byte| is_printable(*byte))
}
