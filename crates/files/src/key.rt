ghost use Rattle.std.specs.Prelude.{◌≡◌, ◌+◌, ◌*◌, ◌^◌, ◌<◌};
ghost use Rattle.files.specs.File.{key_from};
ghost use Rattle.files.specs.Keys.{order_of};

use crate::habit::Habit;
use std::cmp::Ordering;

// By the first byte in which they differ; what a longer one begins with stands below it. Eight bytes are compared as one number.
// Kept: `a.cmp(b)` alone takes twice as long where the first eight bytes differ.
pub fn order_of(a: &[u8], b: &[u8]) -> Ordering
    ensures { result ≡ order_of a.now b.now }
{
    let words = a.len().min(b.len()) / 8;
    for i in 0..words {
        let x = wire::u64_at(a, 8 * i);
        let y = wire::u64_at(b, 8 * i);
        if x != y {
            return x.cmp(&y);
        }
    }
    a[8 * words..].cmp(&b[8 * words..])
}

// The key of so many bytes that begins at a place of the list: what stands past the end is left out.
#[tactic(auto, unfolding(crate::specs::File::key_from))]
fn key_from(list: &[u8], size: usize, at: usize) -> &[u8]
    ensures { result.now ≡ key_from size list.now at }
{
    if list.len() <= at {
        return &list[..0];
    }
    if size <= list.len() - at {
        &list[at..at + size]
    } else {
        &list[at..]
    }
}

// The key that so many keys of a body stand before.
pub fn key_in(list: &[u8], habit: Habit, body: usize, place: usize) -> &[u8]
    requires { (body < 2 ^ 32) × (place < 65536) }
    ensures { result.now ≡ key_from habit.key list.now (body + habit.key * place) }
{
    let size = habit.key as usize;
    key_from(list, size, body + size * place)
}
