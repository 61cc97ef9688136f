//! The challenges of one key at eight addresses at once, each in a lane of its own.
ghost use Rattle.std.specs.Prelude.{◌≡◌, ℕ, ◌/◌, ◌%◌, ◌^◌, ◌<◌, map, slice_index};
ghost use Rattle.chacha_expand.specs.Challenges.{challenge_at};

use crate::blocks::words_of;
use crate::halves::numbers;
use crate::lanes::{stream_states, words};
use std::simd::u64x8;

#[inline(always)]
fn low_half(address: u128) -> u64
    ensures { result ≡ address % 2 ^ 64 }
{
    (address % (1 << 64)) as u64
}

#[inline(always)]
fn high_half(address: u128) -> u64
    ensures { result ≡ address / 2 ^ 64 }
{
    (address >> 64) as u64
}

// The low halves of eight addresses, and the high ones.
#[inline(always)]
fn address_halves(addresses: &[u128; 8]) -> (u64x8, u64x8)
    ensures low { (j : ℕ) → j < 8 → slice_index result.0 j ≡ slice_index addresses.now j % 2 ^ 64 }
    ensures high { (j : ℕ) → j < 8 → slice_index result.1 j ≡ slice_index addresses.now j / 2 ^ 64 }
{
    let [a0, a1, a2, a3, a4, a5, a6, a7] = *addresses;
    let low = u64x8::from_array([
        low_half(a0),
        low_half(a1),
        low_half(a2),
        low_half(a3),
        low_half(a4),
        low_half(a5),
        low_half(a6),
        low_half(a7),
    ]);
    let high = u64x8::from_array([
        high_half(a0),
        high_half(a1),
        high_half(a2),
        high_half(a3),
        high_half(a4),
        high_half(a5),
        high_half(a6),
        high_half(a7),
    ]);
    (low, high)
}

/// The challenges at eight addresses, r and s: what `challenge` gives for each, several times as fast.
pub fn challenge8(ckey: &[u8; 32], addresses: &[u128; 8]) -> [(u128, u128); 8]
    ensures { result ≡ map (challenge_at ckey.now) addresses.now }
{
    let (streams, blocks) = address_halves(addresses);
    let first = stream_states(&words_of(ckey), blocks, streams);
    let [w0, w1, w2, w3, w4, w5, w6, w7, ..] = words(first);
    let [r0, r1, r2, r3, r4, r5, r6, r7] = numbers([w0, w1, w2, w3]);
    let [s0, s1, s2, s3, s4, s5, s6, s7] = numbers([w4, w5, w6, w7]);
    [
        (r0, s0),
        (r1, s1),
        (r2, s2),
        (r3, s3),
        (r4, s4),
        (r5, s5),
        (r6, s6),
        (r7, s7),
    ]
}
