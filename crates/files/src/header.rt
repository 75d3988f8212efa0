ghost use Rattle.std.specs.Prelude.{◌≡◌};
ghost use Rattle.files.specs.File.{segments_of, letter_at, zero_at, count_at, offset_at, contracts_before, contracts_of};
ghost use Rattle.files.specs.Inner.{EntryPlace};

// The bytes of the number of segments, with which the contents begin.
pub const NUMBER: usize = 2;

// The bytes of a segment's entry.
pub const ENTRY: usize = 8;

// The place of a segment's entry; of one past the end, a place past the end.
#[tactic(auto, using(wire::specs::NumberLaws::past_zero))]
fn entry(list: &[u8], segment: usize) -> usize
    ensures { EntryPlace list.now segment result }
{
    if segment <= list.len() / ENTRY {
        NUMBER + ENTRY * segment
    } else {
        list.len()
    }
}

#[tactic(auto, unfolding(crate::specs::File::segments_of))]
pub fn segments(list: &[u8]) -> usize
    ensures { result ≡ segments_of list.now }
{
    wire::u16_at(list, 0) as usize
}

pub fn letter_at(list: &[u8], segment: usize) -> u8
    ensures { result ≡ letter_at list.now segment }
{
    wire::u8_at(list, entry(list, segment))
}

pub fn zero_at(list: &[u8], segment: usize) -> u8
    ensures { result ≡ zero_at list.now segment }
{
    wire::u8_at(list, entry(list, segment) + 1)
}

pub fn count_at(list: &[u8], segment: usize) -> usize
    ensures { result ≡ count_at list.now segment }
{
    wire::u16_at(list, entry(list, segment) + 2) as usize
}

pub fn offset_at(list: &[u8], segment: usize) -> usize
    ensures { result ≡ offset_at list.now segment }
{
    wire::u32_at(list, entry(list, segment) + 4) as usize
}

// The contracts of all segments before this one: the place of its first record.
pub fn contracts_before(list: &[u8], segment: usize) -> usize
    ensures { result ≡ contracts_before list.now segment }
{
    let mut sum = 0;
    for i in 0..segment.min(segments(list)) {
        sum += count_at(list, i);
    }
    sum
}

pub fn all_contracts(list: &[u8]) -> usize
    ensures { result ≡ contracts_of list.now }
{
    contracts_before(list, segments(list))
}
