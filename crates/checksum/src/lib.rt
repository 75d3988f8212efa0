// The checksum of a text, and its two bytes as they are sent.
#![tactic(auto)]

ghost use Rattle.std.specs.Prelude.{◌≡◌, ◌%◌, length};
ghost use Rattle.checksum.specs.Checksum.{sum_from, sum_of, sent_of, lowered};

// The accumulator over a text of whole words, eight bytes a step. Cut out first, a word is read without asking where the text ends.
fn on_words(text: &[u8]) -> u16
    requires { length text.now % 8 ≡ 0 }
    ensures { result ≡ sum_of text.now }
{
    let mut words = accumulator::none();
    for word in 0..text.len() / 8 {
        let at = 8 * word;
        words = accumulator::next(words, wire::u64_at(&text[at..at + 8], 0));
    }
    accumulator::settled(words)
}

// The accumulator over the bytes behind them.
fn on_bytes(acc: u16, text: &[u8]) -> u16
    ensures { result ≡ sum_from acc text.now }
{
    let mut after = acc;
    for byte in text {
        after = accumulator::byte_step(after, *byte);
    }
    after
}

// The accumulator over all bytes of a text.
pub fn sum(text: &[u8]) -> u16
    ensures { result ≡ sum_of text.now }
{
    let whole = text.len() / 8 * 8;
    on_bytes(on_words(&text[0..whole]), &text[whole..])
}

// 10, 13, 17 and 19 are bytes that the line keeps for itself.
fn lower(byte: u8) -> u8
    ensures { result ≡ lowered byte }
{
    match byte {
        10 | 13 | 17 | 19 => byte - 1,
        _ => byte,
    }
}

// The two bytes of a sum as they are sent.
pub fn sent(sum: u16) -> [u8; 2]
    ensures { result ≡ sent_of sum }
{
    [lower((sum % 256) as u8), lower((sum / 256) as u8)]
}
