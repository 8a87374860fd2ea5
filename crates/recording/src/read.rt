// Numbers of the recorded answers, little-endian.
ghost use Rattle.std.specs.Prelude.{◌≡◌, ◌+◌, ◌<◌, ◌≤◌, length, get_or};
ghost use Rattle.image.specs.Node.{half, full_word};
ghost use Rattle.recording.specs.Told.{verdict_at};

use crate::tell::Numbers;

pub fn wide_u16(w: u16) -> usize
    ensures { result ≡ w }
{
    usize::from(w)
}

// Not `usize::from`, which a u32 does not have, nor has it in Rust.
pub fn wide_u32(w: u32) -> usize
    ensures { result ≡ w }
{
    w as usize
}

pub fn u8_at(s: &[u8], at: usize) -> usize
    requires { at < length s.now }
    ensures { (result ≡ get_or s.now at 0) × (result < 256) }
{
    usize::from(s[at])
}

pub fn u16_at(s: &[u8], at: usize) -> usize
    requires { at + 2 ≤ length s.now }
    ensures { (result ≡ half s.now at) × (result < 65536) }
{
    usize::from(u16::from_le_bytes([s[at], s[at + 1]]))
}

pub fn u32_at(s: &[u8], at: usize) -> usize
    requires { at + 4 ≤ length s.now }
    ensures { (result ≡ full_word s.now at) × (result < 4294967296) }
{
    u32::from_le_bytes([s[at], s[at + 1], s[at + 2], s[at + 3]]) as usize
}

// The recorded verdict of a pass.
pub fn verdict_at(s: &[u8], at: usize, refusal: usize) -> Numbers
    requires { at + 12 ≤ length s.now }
    ensures { result ≡ verdict_at s.now at refusal }
{
    let code = u16_at(s, at);
    let place = u16_at(s, at + 2);
    let from = u32_at(s, at + 4);
    let to = u32_at(s, at + 8);
    Numbers(refusal, code, place, from, to, 0)
}
