// The spread list beside the contract list: the same segments, and pairs of keys that are listed there.
ghost use Rattle.std.specs.Prelude.{◌≡◌, ◌<◌};
ghost use Rattle.files.specs.File.{segments_of, count_at};
ghost use Rattle.files.specs.Below.{all_below};
ghost use Rattle.lookup.specs.Lookup.{place_in};
ghost use Rattle.pairs.specs.SpreadTests.{same_letter, is_found, pair_listed, pairs_listed, spread_header_sound, spreads_sound};

use crate::habit::PAIRS;
use files::CONTRACTS;

fn same_letter(list: &[u8], spreads: &[u8], segment: usize) -> bool
    ensures { result ≡ same_letter list.now spreads.now segment }
{
    files::letter_at(spreads, segment) == files::letter_at(list, segment)
}

fn half_listed(list: &[u8], segment: usize, half: &[u8]) -> bool
    ensures { result ≡ is_found (place_in list.now segment half.now) }
{
    lookup::place_of(list, CONTRACTS, segment, half)
        .found
        .is_some()
}

// The halves of a pair are two contracts' keys.
fn pair_listed(list: &[u8], spreads: &[u8], segment: usize, place: usize) -> bool
    requires { place < count_at spreads.now segment }
    ensures { result ≡ pair_listed list.now spreads.now segment place }
{
    let pair = contracts::key_of(spreads, PAIRS, segment, place);
    let half = (CONTRACTS.key as usize).min(pair.len());
    half_listed(list, segment, &pair[..half]) & half_listed(list, segment, &pair[half..])
}

fn pairs_listed(list: &[u8], spreads: &[u8], segment: usize) -> bool
    ensures { result ≡ pairs_listed list.now spreads.now segment }
{
    (0..files::count_at(spreads, segment)).all(|place| pair_listed(list, spreads, segment, place))
}

fn letters_fit(list: &[u8], spreads: &[u8]) -> bool
    ensures { result ≡ all_below (segments_of spreads.now) (same_letter list.now spreads.now) }
{
    (0..files::segments(spreads)).all(|segment| same_letter(list, spreads, segment))
}

fn pairs_fit(list: &[u8], spreads: &[u8]) -> bool
    ensures { result ≡ all_below (segments_of spreads.now) (pairs_listed list.now spreads.now) }
{
    (0..files::segments(spreads)).all(|segment| pairs_listed(list, spreads, segment))
}

// The check of the calls after start, behind the contract list's.
#[tactic(auto, unfolding(crate::specs::SpreadTests::spread_header_sound))]
pub fn spread_header_sound(list: &[u8], spreads: &[u8]) -> bool
    ensures { result ≡ spread_header_sound list.now spreads.now }
{
    (contracts::header_sound(spreads, PAIRS) & (files::segments(spreads) == files::segments(list)))
        && letters_fit(list, spreads)
}

// The check of start, behind the contract list's: the pairs too.
#[tactic(auto, unfolding(crate::specs::SpreadTests::spreads_sound))]
pub fn spreads_sound(list: &[u8], spreads: &[u8]) -> bool
    ensures { result ≡ spreads_sound list.now spreads.now }
{
    spread_header_sound(list, spreads)
        && (contracts::bodies_sound(spreads, PAIRS) & pairs_fit(list, spreads))
}
