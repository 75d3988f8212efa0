// The spread list without pairs, for the segments of a contract list.
ghost use Rattle.std.specs.Prelude.{◌≡◌, ◌+◌, ◌^◌, ◌<◌};
ghost use Rattle.std.proofs.lemmas.List.Edits.{sets};
ghost use Rattle.files.specs.File.{segments_of, entry_at};
ghost use Rattle.pairs.specs.NoSpreads.{empty_entry, no_spreads};

// Its bytes: the contents alone.
#[tactic(auto, using(files::specs::FileLaws::segments_under))]
pub fn no_spreads_size(list: &[u8]) -> usize
    ensures { result ≡ entry_at (segments_of list.now) }
{
    files::NUMBER + files::ENTRY * files::segments(list)
}

fn put_empty_entry(out: &mut [u8], at: usize, letter: u8, offset: u32)
    requires { at + 8 < 2 ^ 64 }
    ensures { out.new ≡ sets out.old at (empty_entry letter offset) }
{
    wire::put_u8(out, at, letter);
    wire::put_u8(out, at + 1, 0);
    wire::put_u16(out, at + 2, 0);
    wire::put_u32(out, at + 4, offset);
}

// Over the front of `out`, as far as it goes.
#[tactic(auto, using(files::specs::FileLaws::segments_under, crate::specs::NoSpreadsLaws::entries_next), unfolding(crate::specs::NoSpreads::no_spreads))]
pub fn put_no_spreads(list: &[u8], out: &mut [u8])
    ensures { out.new ≡ sets out.old 0 (no_spreads list.now) }
{
    let listed = files::segments(list);
    let size = no_spreads_size(list) as u32;
    wire::put_u16(out, 0, listed as u16);
    for i in 0..listed {
        let at = files::NUMBER + files::ENTRY * i;
        put_empty_entry(out, at, files::letter_at(list, i), size);
    }
}
