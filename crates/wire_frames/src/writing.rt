//! Writing the parts of a body, one behind the other. Each function is given the place to write at, and
//! answers the place behind.
ghost use Rattle.std.specs.Prelude.{◌≡◌, ◌+◌, ◌*◌, ◌≤◌, length};
ghost use Rattle.std.specs.Int.{w16, w32, w64, to_be_bytes};
ghost use Rattle.std.specs.List.{flat_map};
ghost use Rattle.frame_rules.specs.Spelling.{word, address, openings, closing, proof_share};
ghost use Rattle.wire_frames.specs.Writing.{Writes};

use express_words::{Closing, Openings, ProofShare};

/// Writes these bytes.
pub fn put(out: &mut [u8], place: usize, bytes: &[u8]) -> usize
    requires { place + length bytes.now ≤ length out.old }
    ensures written { Writes out.old place bytes.now out.new result }
    ensures end { result ≡ place + length bytes.now }
{
    let end = place + bytes.len();
    out[place..end].copy_from_slice(bytes);
    end
}

/// Writes a number, big-endian.
pub fn put_u16(out: &mut [u8], place: usize, number: u16) -> usize
    requires { place + 2 ≤ length out.old }
    ensures written { Writes out.old place (to_be_bytes w16 number) out.new result }
    ensures end { result ≡ place + 2 }
{
    put(out, place, &number.to_be_bytes())
}

/// Writes a number, big-endian.
pub fn put_u32(out: &mut [u8], place: usize, number: u32) -> usize
    requires { place + 4 ≤ length out.old }
    ensures written { Writes out.old place (to_be_bytes w32 number) out.new result }
    ensures end { result ≡ place + 4 }
{
    put(out, place, &number.to_be_bytes())
}

/// Writes a number, big-endian.
pub fn put_u64(out: &mut [u8], place: usize, number: u64) -> usize
    requires { place + 8 ≤ length out.old }
    ensures written { Writes out.old place (to_be_bytes w64 number) out.new result }
    ensures end { result ≡ place + 8 }
{
    put(out, place, &number.to_be_bytes())
}

/// An address is big-endian.
#[tactic(auto, unfolding(frame_rules::specs::Spelling::address))]
pub fn put_address(out: &mut [u8], place: usize, number: u128) -> usize
    requires { place + 16 ≤ length out.old }
    ensures written { Writes out.old place (address number) out.new result }
    ensures end { result ≡ place + 16 }
{
    put(out, place, &number.to_be_bytes())
}

/// A word is little-endian.
#[tactic(auto, unfolding(frame_rules::specs::Spelling::word))]
pub fn put_word(out: &mut [u8], place: usize, number: u128) -> usize
    requires { place + 16 ≤ length out.old }
    ensures written { Writes out.old place (word number) out.new result }
    ensures end { result ≡ place + 16 }
{
    put(out, place, &number.to_le_bytes())
}

/// Writes d and e.
pub fn put_openings(out: &mut [u8], place: usize, opened: &Openings) -> usize
    requires { place + 32 ≤ length out.old }
    ensures written { Writes out.old place (openings opened.now) out.new result }
    ensures end { result ≡ place + 32 }
{
    let place = put_word(out, place, opened.d);
    put_word(out, place, opened.e)
}

/// Writes o and tau.
pub fn put_closing(out: &mut [u8], place: usize, closed: &Closing) -> usize
    requires { place + 32 ≤ length out.old }
    ensures written { Writes out.old place (closing closed.now) out.new result }
    ensures end { result ≡ place + 32 }
{
    let place = put_word(out, place, closed.o);
    put_word(out, place, closed.tau)
}

/// Writes words, one after the other.
fn put_words(out: &mut [u8], place: usize, words: &[u128]) -> usize
    requires { place + length words.now * 16 ≤ length out.old }
    ensures written { Writes out.old place (flat_map word words.now) out.new result }
    ensures end { result ≡ place + length words.now * 16 }
{
    let mut end = place;
    for word in words {
        end = put_word(out, end, *word);
    }
    end
}

/// Writes u, v, the five coefficients h, and the triple a, b, c.
pub fn put_proof_share(out: &mut [u8], place: usize, share: &ProofShare) -> usize
    requires { place + 160 ≤ length out.old }
    ensures written { Writes out.old place (proof_share share.now) out.new result }
    ensures end { result ≡ place + 160 }
{
    let place = put_word(out, place, share.u);
    let place = put_word(out, place, share.v);
    let place = put_words(out, place, &share.h);
    let place = put_word(out, place, share.a);
    let place = put_word(out, place, share.b);
    put_word(out, place, share.c)
}
