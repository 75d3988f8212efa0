// A word at a time, without a table: four words that the accumulator has still to take, from 0, stand for all words before them.
// When one more comes the first of them leaves, and is exclusive-ored in where it comes back: in the word behind it, a quarter of a
// word further up in the two behind that, and in the new one. For words of four bits POLY says so, and by squaring it is so for
// words of twice as many bits, each time (specs/Powers).
ghost use Rattle.std.specs.Prelude.{◌≡◌, ℕ, ◌*◌};
ghost use Rattle.accumulator.specs.Words.{word_step, after_four};
ghost use Rattle.accumulator.specs.WordsLaws.{Halving, Quarter};

use crate::steps;

#[derive(Clone, Copy)]
pub struct Words {
    pub first: u64,
    pub second: u64,
    pub third: u64,
    pub fourth: u64,
}

// Before any word.
pub fn none() -> Words
    ensures { (width : ℕ) → after_four width result ≡ 0 }
{
    Words {
        first: 0,
        second: 0,
        third: 0,
        fourth: 0,
    }
}

// The four words after one more, for words of four times `quarter` bits. What stands above those bits in a word does not count.
fn with_word(words: Words, quarter: u32, word: u64) -> Words
    requires { Quarter quarter }
    ensures { after_four (4 * quarter) result ≡ word_step (4 * quarter) (after_four (4 * quarter) words) word }
{
    let highest = (words.first >> (3 * quarter)) & ((1 << quarter) - 1);
    Words {
        first: words.second ^ words.first,
        second: words.third ^ highest,
        third: words.fourth ^ (words.first << quarter),
        fourth: word ^ words.first,
    }
}

// The same for a word of twice as many bits: its upper half, then its lower one.
fn with_halves(words: Words, quarter: u32, word: u64) -> Words
    requires { Halving quarter }
    ensures { after_four (4 * quarter) result ≡ word_step (8 * quarter) (after_four (4 * quarter) words) word }
{
    let upper = word >> (4 * quarter);
    with_word(with_word(words, quarter, upper), quarter, word)
}

// Four words for four of twice as many bits.
fn halved(words: Words, quarter: u32) -> Words
    requires { Halving quarter }
    ensures { after_four (4 * quarter) result ≡ after_four (8 * quarter) words }
{
    let one = with_halves(none(), quarter, words.first);
    let two = with_halves(one, quarter, words.second);
    let three = with_halves(two, quarter, words.third);
    with_halves(three, quarter, words.fourth)
}

// The four words of eight bytes after one more.
pub fn next(words: Words, word: u64) -> Words
    ensures { after_four 64 result ≡ word_step 64 (after_four 64 words) word }
{
    with_word(words, 16, word)
}

// The accumulator after a word's lowest eight bits.
fn with_byte(acc: u16, word: u64) -> u16
    ensures { result ≡ word_step 8 acc word }
{
    steps::byte_step(acc, (word % 256) as u8)
}

// The accumulator once it has taken the four words of eight bytes.
pub fn settled(words: Words) -> u16
    ensures { result ≡ after_four 64 words }
{
    let bytes = halved(halved(halved(words, 8), 4), 2);
    let one = with_byte(0, bytes.first);
    let two = with_byte(one, bytes.second);
    let three = with_byte(two, bytes.third);
    with_byte(three, bytes.fourth)
}
