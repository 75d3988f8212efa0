// The fields of a message, each at its place. What stands past the end reads as zero, so that no caller checks first.
ghost use Rattle.std.specs.Prelude.{◌≡◌};
ghost use Rattle.forms.specs.Answers.{Tells, named_numbers, form_named};
ghost use Rattle.head.specs.Fields.{letter_of, segment_letter_of, second_of, length_of, number_of, form_in};

use layout::Named;

// The letter of the codes of pre-open.
pub(crate) const PRE_OPEN: u8 = b'P';

// Code (2), length (2), number (4), data, sum (2), end byte.
const SECOND: usize = 1;

const LENGTH: usize = 2;

const NUMBER: usize = 4;

pub const DATA: usize = 8;

pub const TRAILER: usize = 3;

#[tactic(auto, unfolding(crate::specs::Fields::letter_of))]
pub(crate) fn letter_of(bytes: &[u8]) -> u8
    ensures { result ≡ letter_of bytes.now }
{
    wire::u8_at(bytes, 0)
}

// P counts as F.
#[tactic(auto, unfolding(crate::specs::Fields::segment_letter_of))]
pub fn segment_letter_of(bytes: &[u8]) -> u8
    ensures { result ≡ segment_letter_of bytes.now }
{
    let letter = letter_of(bytes);
    if letter == PRE_OPEN {
        return b'F';
    }
    letter
}

#[tactic(auto, unfolding(crate::specs::Fields::second_of))]
pub(crate) fn second_of(bytes: &[u8]) -> u8
    ensures { result ≡ second_of bytes.now }
{
    wire::u8_at(bytes, SECOND)
}

#[tactic(auto, unfolding(crate::specs::Fields::length_of))]
pub fn length_of(bytes: &[u8]) -> usize
    ensures { result ≡ length_of bytes.now }
{
    wire::u16_at(bytes, LENGTH) as usize
}

#[tactic(auto, unfolding(crate::specs::Fields::number_of))]
pub fn number_of(bytes: &[u8]) -> u32
    ensures { result ≡ number_of bytes.now }
{
    wire::u32_at(bytes, NUMBER)
}

#[tactic(auto, unfolding(crate::specs::Fields::form_in))]
pub fn form_in(bytes: &[u8]) -> Named
    ensures { Tells named_numbers form_named (form_in bytes.now) result }
{
    layout::form_of(letter_of(bytes), second_of(bytes), length_of(bytes))
}
