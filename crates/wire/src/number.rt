ghost use Rattle.std.specs.Prelude.{◌≡◌, ℕ, ◌+◌, ◌<◌, slice_index};
ghost use Rattle.std.proofs.lemmas.List.Edits.{sets};
ghost use Rattle.wire.specs.Number.{number_at, bytes_of};

// What stands past the end reads as zero bytes, and is not written: so no caller checks first.

pub fn u8_at(s: &[u8], at: usize) -> u8
    ensures { result ≡ number_at 1 s.now at }
{
    if at < s.len() { s[at] } else { 0 }
}

// Kept: read as `u64_at` reads eight bytes, a heartbeat, which has numbers of two and of four bytes alone, takes a fifth longer.
pub fn u16_at(s: &[u8], at: usize) -> u16
    ensures { result ≡ number_at 2 s.now at }
{
    if at < s.len() {
        u16::from(u8_at(s, at)) * 256 + u16::from(u8_at(s, at + 1))
    } else {
        0
    }
}

pub fn u32_at(s: &[u8], at: usize) -> u32
    ensures { result ≡ number_at 4 s.now at }
{
    if at < s.len() {
        u32::from(u16_at(s, at)) * 65536 + u32::from(u16_at(s, at + 2))
    } else {
        0
    }
}

fn eight_at(s: &[u8], at: usize) -> [u8; 8]
    ensures { (i : ℕ) → i < 8 → slice_index result i ≡ slice_index s.now (at + i) }
{
    let there = &s[at.min(s.len())..];
    if let Some(bytes) = there.first_chunk() {
        return *bytes;
    }
    let mut bytes = [0u8; 8];
    bytes[..there.len()].copy_from_slice(there);
    bytes
}

pub fn u64_at(s: &[u8], at: usize) -> u64
    ensures { result ≡ number_at 8 s.now at }
{
    u64::from_be_bytes(eight_at(s, at))
}

// The bytes of a number that has room are stored at once: how many they are is known when it is compiled.
fn put_bytes<const N: usize>(s: &mut [u8], at: usize, bytes: [u8; N])
    ensures { s.new ≡ sets s.old at bytes.entry }
{
    let at = at.min(s.len());
    let room = N.min(s.len() - at);
    if room == N {
        s[at..at + N].copy_from_slice(&bytes);
        return;
    }
    s[at..at + room].copy_from_slice(&bytes[..room]);
}

pub fn put_u8(s: &mut [u8], at: usize, number: u8)
    ensures { s.new ≡ sets s.old at (bytes_of 1 number) }
{
    put_bytes(s, at, u8::to_be_bytes(number));
}

pub fn put_u16(s: &mut [u8], at: usize, number: u16)
    ensures { s.new ≡ sets s.old at (bytes_of 2 number) }
{
    put_bytes(s, at, u16::to_be_bytes(number));
}

pub fn put_u32(s: &mut [u8], at: usize, number: u32)
    ensures { s.new ≡ sets s.old at (bytes_of 4 number) }
{
    put_bytes(s, at, u32::to_be_bytes(number));
}
