ghost use Rattle.std.specs.Prelude.{◌≡◌};
ghost use Rattle.files.specs.File.{count_at};
ghost use Rattle.laws.specs.Refused.{code_no};
ghost use Rattle.lookup.specs.Answers.{found_numbers, looked_up, Reports};
ghost use Rattle.lookup.specs.Lookup.{segment_of, lookup};

use files::Habit;
use std::cmp::Ordering;

// A key that was looked up: where it is listed, 13 where it is nowhere, and how many keys were compared with it.
#[derive(Clone, Copy)]
pub struct Sought {
    pub found: Option<usize>,
    pub compared: usize,
}

// The segment that has a letter: 6 where none has.
pub fn segment_of(list: &[u8], letter: u8) -> Option<usize>
    ensures { found_numbers code_no result ≡ looked_up code_no (segment_of list.now letter) }
{
    (0..files::segments(list)).find(|segment| files::letter_at(list, *segment) == letter)
}

// The place of a key in a segment, by halving: `left` keys are left, the first of which is key `low`.
pub fn place_of(list: &[u8], habit: Habit, segment: usize, wanted: &[u8]) -> Sought
    ensures { Reports (lookup habit list.now segment wanted.now) (count_at list.now segment) result }
{
    let offset = files::offset_at(list, segment);
    let mut low = 0;
    let mut left = files::count_at(list, segment);
    let mut compared = 0;
    // Kept: the library's binary search halves by another rule, and does not tell how many keys it compared.
    while 0 < left {
        let below = (left - 1) / 2;
        let place = low + below;
        compared += 1;
        match files::order_of(wanted, files::key_in(list, habit, offset, place)) {
            Ordering::Equal => {
                return Sought {
                    found: Some(place),
                    compared,
                };
            }
            Ordering::Less => {
                left = below;
            }
            Ordering::Greater => {
                low = place + 1;
                left = left - 1 - below;
            }
        }
    }
    Sought {
        found: None,
        compared,
    }
}
