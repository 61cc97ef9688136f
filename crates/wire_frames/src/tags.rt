//! Writing a tag, and what stands behind it.
ghost use Rattle.std.specs.Prelude.{◌≡◌, ◌+◌, ◌≤◌, [], ◌∷◌, ◌++◌, length};
ghost use Rattle.std.specs.Int.{w16, w32, w64, to_be_bytes};
ghost use Rattle.frame_rules.specs.Spelling.{word};
ghost use Rattle.wire_frames.specs.Writing.{Writes};

use crate::writing::{put, put_u16, put_u32, put_u64, put_word};

/// Writes a tag alone, and gives the place behind what it wrote, as each of these does.
pub fn put_tag(out: &mut [u8], place: usize, tag: u8) -> usize
    requires { place + 1 ≤ length out.old }
    ensures written { Writes out.old place (tag ∷ []) out.new result }
    ensures end { result ≡ place + 1 }
{
    put(out, place, &[tag])
}

/// Writes a tag and one byte.
pub fn put_tag_u8(out: &mut [u8], place: usize, tag: u8, number: u8) -> usize
    requires { place + 2 ≤ length out.old }
    ensures { Writes out.old place (tag ∷ number ∷ []) out.new result }
{
    put(out, place, &[tag, number])
}

/// Writes a tag and a number, big-endian.
pub fn put_tag_u16(out: &mut [u8], place: usize, tag: u8, number: u16) -> usize
    requires { place + 3 ≤ length out.old }
    ensures { Writes out.old place (tag ∷ to_be_bytes w16 number) out.new result }
{
    let place = put_tag(out, place, tag);
    put_u16(out, place, number)
}

/// Writes a tag and a number, big-endian.
pub fn put_tag_u32(out: &mut [u8], place: usize, tag: u8, number: u32) -> usize
    requires { place + 5 ≤ length out.old }
    ensures { Writes out.old place (tag ∷ to_be_bytes w32 number) out.new result }
{
    let place = put_tag(out, place, tag);
    put_u32(out, place, number)
}

/// Writes a tag and a number, big-endian.
pub fn put_tag_u64(out: &mut [u8], place: usize, tag: u8, number: u64) -> usize
    requires { place + 9 ≤ length out.old }
    ensures { Writes out.old place (tag ∷ to_be_bytes w64 number) out.new result }
{
    let place = put_tag(out, place, tag);
    put_u64(out, place, number)
}

/// Writes a tag and a word, little-endian.
pub fn put_tag_word(out: &mut [u8], place: usize, tag: u8, number: u128) -> usize
    requires { place + 17 ≤ length out.old }
    ensures written { Writes out.old place (tag ∷ word number) out.new result }
    ensures end { result ≡ place + 17 }
{
    let place = put_tag(out, place, tag);
    put_word(out, place, number)
}

/// Writes a tag and these bytes.
pub fn put_tag_bytes(out: &mut [u8], place: usize, tag: u8, bytes: &[u8]) -> usize
    requires { place + (1 + length bytes.now) ≤ length out.old }
    ensures written { Writes out.old place (tag ∷ bytes.now) out.new result }
    ensures end { result ≡ place + (1 + length bytes.now) }
{
    let place = put_tag(out, place, tag);
    put(out, place, bytes)
}
