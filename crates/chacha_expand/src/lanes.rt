//! ChaCha20's block function (RFC 8439, section 2.3) on eight states at once. Each word of the state is a vector with
//! one lane a block. The shape is for speed; lane by lane it is `rand_chacha`'s specification of the block.
ghost use Rattle.std.specs.Prelude.{◌≡◌, ℕ, ◌<◌, slice_index};
ghost use Rattle.rand_chacha.specs.Block.{add32, xor_rotate, quarter_round, column_round, diagonal_round, initial_state};
ghost use Rattle.rand_chacha.specs.Lanes.{lane, lane_at};
ghost use Rattle.chacha_expand.specs.KeyLanes.{key_lane, state_word};

use crate::halves::{high_words, low_words};
use std::simd::{u32x8, u64x8};

#[inline(always)]
fn add(a: u32x8, b: u32x8) -> u32x8
    ensures { (j : ℕ) → j < 8 → slice_index result j ≡ add32 (slice_index a j) (slice_index b j) }
{
    a + b
}

// `a ^ b`, turned left by `turn` bits.
#[inline(always)]
fn xor_rotate(a: u32x8, b: u32x8, turn: u32) -> u32x8
    requires { (0 < turn) × (turn < 32) }
    ensures { (j : ℕ) → j < 8 → slice_index result j ≡ xor_rotate (slice_index a j) (slice_index b j) turn }
{
    let sum = a ^ b;
    (sum << u32x8::splat(turn)) | (sum >> u32x8::splat(32 - turn))
}

#[inline(always)]
fn quarter_round(a: u32x8, b: u32x8, c: u32x8, d: u32x8) -> (u32x8, u32x8, u32x8, u32x8)
    ensures { (j : ℕ) → j < 8
        → (slice_index result.0 j, slice_index result.1 j, slice_index result.2 j, slice_index result.3 j)
        ≡ quarter_round (slice_index a j) (slice_index b j) (slice_index c j) (slice_index d j) }
{
    let a = add(a, b);
    let d = xor_rotate(d, a, 16);
    let c = add(c, d);
    let b = xor_rotate(b, c, 12);
    let a = add(a, b);
    let d = xor_rotate(d, a, 8);
    let c = add(c, d);
    let b = xor_rotate(b, c, 7);
    (a, b, c, d)
}

// Quarter rounds on the columns of the state, then on its diagonals.
#[inline(always)]
fn double_round(state: [u32x8; 16]) -> [u32x8; 16]
    ensures { (j : ℕ) → j < 8 → lane j result ≡ diagonal_round (column_round (lane j state)) }
{
    let [
        a0,
        a1,
        a2,
        a3,
        b0,
        b1,
        b2,
        b3,
        c0,
        c1,
        c2,
        c3,
        d0,
        d1,
        d2,
        d3,
    ] = state;
    let (a0, b0, c0, d0) = quarter_round(a0, b0, c0, d0);
    let (a1, b1, c1, d1) = quarter_round(a1, b1, c1, d1);
    let (a2, b2, c2, d2) = quarter_round(a2, b2, c2, d2);
    let (a3, b3, c3, d3) = quarter_round(a3, b3, c3, d3);
    let (a0, b1, c2, d3) = quarter_round(a0, b1, c2, d3);
    let (a1, b2, c3, d0) = quarter_round(a1, b2, c3, d0);
    let (a2, b3, c0, d1) = quarter_round(a2, b3, c0, d1);
    let (a3, b0, c1, d2) = quarter_round(a3, b0, c1, d2);
    [
        a0, a1, a2, a3, b0, b1, b2, b3, c0, c1, c2, c3, d0, d1, d2, d3,
    ]
}

/// The states that begin block 0 of stream 0 under eight keys whose last four words are zero.
#[inline(always)]
pub fn first_states(keys: [u32x8; 4]) -> [u32x8; 16]
    ensures { (j : ℕ) → j < 8 → lane j result ≡ initial_state (key_lane j keys) 0 0 }
{
    let [k0, k1, k2, k3] = keys;
    let zero = u32x8::splat(0);
    [
        u32x8::splat(0x6170_7865),
        u32x8::splat(0x3320_646e),
        u32x8::splat(0x7962_2d32),
        u32x8::splat(0x6b20_6574),
        k0,
        k1,
        k2,
        k3,
        zero,
        zero,
        zero,
        zero,
        zero,
        zero,
        zero,
        zero,
    ]
}

/// The states that begin a block of a stream under one key: each lane has its own block and its own stream.
#[inline(always)]
pub fn stream_states(key: &[u32; 8], blocks: u64x8, streams: u64x8) -> [u32x8; 16]
    ensures { (j : ℕ) → j < 8 → lane j result ≡ initial_state key.now (slice_index blocks j) (slice_index streams j) }
{
    let [k0, k1, k2, k3, k4, k5, k6, k7] = *key;
    [
        u32x8::splat(0x6170_7865),
        u32x8::splat(0x3320_646e),
        u32x8::splat(0x7962_2d32),
        u32x8::splat(0x6b20_6574),
        u32x8::splat(k0),
        u32x8::splat(k1),
        u32x8::splat(k2),
        u32x8::splat(k3),
        u32x8::splat(k4),
        u32x8::splat(k5),
        u32x8::splat(k6),
        u32x8::splat(k7),
        low_words(blocks),
        high_words(blocks),
        low_words(streams),
        high_words(streams),
    ]
}

/// The words of the blocks that eight states begin.
#[inline(always)]
pub fn words(first: [u32x8; 16]) -> [u32x8; 16]
    ensures { (j k : ℕ) → j < 8 → k < 16 → lane_at result k j ≡ state_word (lane j first) k }
{
    let mut state = first;
    'rounds: for _round in 0..10u32 {
        state = double_round(state);
    }
    [
        add(state[0], first[0]),
        add(state[1], first[1]),
        add(state[2], first[2]),
        add(state[3], first[3]),
        add(state[4], first[4]),
        add(state[5], first[5]),
        add(state[6], first[6]),
        add(state[7], first[7]),
        add(state[8], first[8]),
        add(state[9], first[9]),
        add(state[10], first[10]),
        add(state[11], first[11]),
        add(state[12], first[12]),
        add(state[13], first[13]),
        add(state[14], first[14]),
        add(state[15], first[15]),
    ]
}
