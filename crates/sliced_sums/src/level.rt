//! The elements of a level of the tower at 256 places, a vector for each of their bits.
ghost use Rattle.std.specs.Prelude.{◌≡◌, ℕ, ◌+◌, ◌<◌, ◌≤◌, ◌/◌, ◌%◌, ◌^◌, slice_index, bit_xor};
ghost use Rattle.tower_numbers.specs.Levels.{product_at, twist_at};
ghost use Rattle.sliced_sums.specs.Places.{sum_over};

use crate::bytes::Bytes;

/// A level of the tower in slices.
pub trait Level: Copy {
    /// The number of the level.
    ghost level: { ℕ };

    /// The element at a place.
    ghost at: { Self → ℕ → ℕ };

    /// Zero at each place.
    fn zero() -> Self
        ensures { (j : ℕ) → j < 256 → at result j ≡ 0 };

    /// Adds the element at each place.
    fn add(&mut self, other: &Self)
        ensures { (j : ℕ) → j < 256 → at self.new j ≡ bit_xor (at self.old j) (at other.now j) };

    /// Adds the product with the twist at each place.
    fn add_twisted(&mut self, other: &Self)
        ensures { (j : ℕ) → j < 256
            → at self.new j ≡ bit_xor (at self.old j) (product_at level (twist_at level) (at other.now j)) };

    /// Becomes the product at each place.
    fn set_product(&mut self, a: &Self, b: &Self)
        ensures { (j : ℕ) → j < 256 → at self.new j ≡ product_at level (at a.now j) (at b.now j) };

    /// The bits of numbers from one on, as many as an element of this level has, which is `width`.
    fn gather(bytes: &Bytes, from: u32, width: u32) -> Self
        requires width { width ≡ 2 ^ level }
        requires inside { from + width ≤ 128 }
        ensures { (j : ℕ) → j < 256
            → at result j ≡ slice_index bytes.now.numbers j / 2 ^ from % 2 ^ width };

    /// The sum of the elements at all places, where an element has `width` bits.
    fn sum(&self, width: u32) -> u128
        requires width { width ≡ 2 ^ level }
        requires small { width ≤ 128 }
        ensures { result ≡ sum_over 256 (at self.now) };

    ghost below: { (x : Self) (j : ℕ) → at x j < 2 ^ (2 ^ level) };
}
