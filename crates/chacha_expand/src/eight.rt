//! The children of eight states at once, each in a lane of its own. Words go in and out by halves of 64 bits: fewer
//! moves between lanes and numbers, which saves a tenth of the time.
ghost use Rattle.std.specs.Prelude.{◌≡◌, ℕ, ◌+◌, ◌*◌, ◌/◌, ◌%◌, ◌^◌, ◌<◌, [], ◌∷◌, map, slice_index};
ghost use Rattle.rand_chacha.specs.Lanes.{lane_at};
ghost use Rattle.dpf_rules.specs.Bytes.{value_in};
ghost use Rattle.dpf_rules.specs.Expansion.{with_bit};
ghost use Rattle.dpf_rules.specs.Keys.{raw_pair};

use crate::halves::{high_words, low_words, numbers};
use crate::lanes::{first_states, words};
use std::simd::{u32x8, u64x8};

// The halves of a node's key: of its state without the control bit.
#[inline(always)]
fn low_half(state: u128) -> u64
    ensures { result ≡ with_bit state 0 % 2 ^ 64 }
{
    (state / 2 * 2 % (1 << 64)) as u64
}

#[inline(always)]
fn high_half(state: u128) -> u64
    ensures { result ≡ with_bit state 0 / 2 ^ 64 % 2 ^ 64 }
{
    (state >> 64) as u64
}

// The four words of each node's key that are not always zero.
#[inline(always)]
fn key_words(states: &[u128; 8]) -> [u32x8; 4]
    ensures { (k j : ℕ) → k < 4 → j < 8 → lane_at result k j ≡ with_bit (slice_index states.now j) 0 / 2 ^ (32 * k) % 2 ^ 32 }
{
    let [s0, s1, s2, s3, s4, s5, s6, s7] = *states;
    let low = u64x8::from_array([
        low_half(s0),
        low_half(s1),
        low_half(s2),
        low_half(s3),
        low_half(s4),
        low_half(s5),
        low_half(s6),
        low_half(s7),
    ]);
    let high = u64x8::from_array([
        high_half(s0),
        high_half(s1),
        high_half(s2),
        high_half(s3),
        high_half(s4),
        high_half(s5),
        high_half(s6),
        high_half(s7),
    ]);
    [
        low_words(low),
        high_words(low),
        low_words(high),
        high_words(high),
    ]
}

/// The raw children of eight states, left and right: what `children` gives for each, several times as fast.
pub fn children8(states: &[u128; 8]) -> [(u128, u128); 8]
    ensures { result ≡ map raw_pair states.now }
{
    let [w0, w1, w2, w3, w4, w5, w6, w7, ..] = words(first_states(key_words(states)));
    let [l0, l1, l2, l3, l4, l5, l6, l7] = numbers([w0, w1, w2, w3]);
    let [r0, r1, r2, r3, r4, r5, r6, r7] = numbers([w4, w5, w6, w7]);
    [
        (l0, r0),
        (l1, r1),
        (l2, r2),
        (l3, r3),
        (l4, r4),
        (l5, r5),
        (l6, r6),
        (l7, r7),
    ]
}
