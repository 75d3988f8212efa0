ghost use Rattle.std.specs.Prelude.{◌≡◌, ◌<◌};
ghost use Rattle.files.specs.File.{segments_of, count_at, key_by};
ghost use Rattle.files.specs.Below.{all_below};
ghost use Rattle.contracts.specs.SoundTests.{within, is_letter, letter_ascends, body_at, entry_sound, header_sound_by, key_ascends, key_sound, body_sound, sound_by};

use files::Habit;

// The most segments of a list.
pub const MOST_SEGMENTS: usize = 3;

// Tests are joined by `&`: none can fail, so that none has to wait for another.

pub fn is_letter(letter: u8) -> bool
    ensures { result ≡ is_letter letter }
{
    matches!(letter, b'D' | b'F' | b'T')
}

fn within(low: usize, high: usize, n: usize) -> bool
    ensures { result ≡ within low high n }
{
    (low..=high).contains(&n)
}

fn letter_ascends(list: &[u8], segment: usize) -> bool
    ensures { result ≡ letter_ascends list.now segment }
{
    if segment == 0 {
        return true;
    }
    files::letter_at(list, segment - 1) < files::letter_at(list, segment)
}

// Where the body of a segment begins, with no hole before it.
#[tactic(auto, using(files::specs::FileLaws::segments_under, files::specs::FileLaws::bodies_under))]
fn body_at(list: &[u8], habit: Habit, segment: usize) -> usize
    ensures { result ≡ body_at habit list.now segment }
{
    files::NUMBER
        + files::ENTRY * files::segments(list)
        + (habit.key as usize) * files::contracts_before(list, segment)
}

#[tactic(auto, unfolding(crate::specs::SoundTests::entry_sound))]
fn entry_sound(list: &[u8], habit: Habit, segment: usize) -> bool
    ensures { result ≡ entry_sound habit list.now segment }
{
    is_letter(files::letter_at(list, segment))
        & letter_ascends(list, segment)
        & (files::zero_at(list, segment) == 0)
        & within(
            habit.fewest as usize,
            habit.most as usize,
            files::count_at(list, segment),
        )
        & (files::offset_at(list, segment) == body_at(list, habit, segment))
}

#[tactic(auto, using(files::specs::FileLaws::count_under, files::specs::FileLaws::offset_under))]
pub fn key_of(list: &[u8], habit: Habit, segment: usize, place: usize) -> &[u8]
    requires { place < count_at list.now segment }
    ensures { result.now ≡ key_by habit list.now segment place }
{
    files::key_in(list, habit, files::offset_at(list, segment), place)
}

fn key_ascends(list: &[u8], habit: Habit, segment: usize, place: usize) -> bool
    requires { place < count_at list.now segment }
    ensures { result ≡ key_ascends habit list.now segment place }
{
    if place == 0 {
        return true;
    }
    let before = key_of(list, habit, segment, place - 1);
    files::order_of(before, key_of(list, habit, segment, place)).is_lt()
}

#[tactic(auto, unfolding(crate::specs::SoundTests::key_sound))]
fn key_sound(list: &[u8], habit: Habit, segment: usize, place: usize) -> bool
    requires { place < count_at list.now segment }
    ensures { result ≡ key_sound habit list.now segment place }
{
    wire::all_printable(key_of(list, habit, segment, place))
        & key_ascends(list, habit, segment, place)
}

fn body_sound(list: &[u8], habit: Habit, segment: usize) -> bool
    ensures { result ≡ body_sound habit list.now segment }
{
    (0..files::count_at(list, segment)).all(|place| key_sound(list, habit, segment, place))
}

pub fn entries_sound(list: &[u8], habit: Habit) -> bool
    ensures { result ≡ all_below (segments_of list.now) (entry_sound habit list.now) }
{
    (0..files::segments(list)).all(|segment| entry_sound(list, habit, segment))
}

pub fn bodies_sound(list: &[u8], habit: Habit) -> bool
    ensures { result ≡ all_below (segments_of list.now) (body_sound habit list.now) }
{
    (0..files::segments(list)).all(|segment| body_sound(list, habit, segment))
}

// The check of the calls after start: all that stands before the bodies, and the size.
#[tactic(auto, unfolding(crate::specs::SoundTests::header_sound_by))]
pub fn header_sound(list: &[u8], habit: Habit) -> bool
    ensures { result ≡ header_sound_by habit list.now }
{
    let listed = files::segments(list);
    if within(1, MOST_SEGMENTS, listed) {
        entries_sound(list, habit) & (list.len() == body_at(list, habit, listed))
    } else {
        false
    }
}

// The check of start: the bodies too.
#[tactic(auto, unfolding(crate::specs::SoundTests::sound_by))]
pub fn sound(list: &[u8], habit: Habit) -> bool
    ensures { result ≡ sound_by habit list.now }
{
    header_sound(list, habit) && bodies_sound(list, habit)
}
