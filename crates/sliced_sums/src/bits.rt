//! Level 0: a bit at each of 256 places.
ghost use Rattle.std.specs.Prelude.{◌≡◌, length};
ghost use Rattle.std.proofs.lemmas.Nat.Bits.{bit_at-lt};
ghost use Rattle.sliced_sums.specs.Places.{bit_of};

use crate::bytes::Bytes;
use crate::level::Level;
use std::simd::u64x4;

/// The bits of 256 places, 64 of them in each of four words.
#[derive(Clone, Copy)]
pub struct Bits {
    words: u64x4,
    ghost four: { length words ≡ 4 },
}

impl Level for Bits {
    ghost level = { 0 };

    ghost at = { λ x. bit_of x.words };

    ghost below = { λ x j. bit_at-lt _ _ };

    fn zero() -> Bits {
        Bits {
            words: u64x4::splat(0),
        }
    }

    fn add(&mut self, other: &Bits) {
        *self = Bits {
            words: self.words ^ other.words,
        };
    }

    // The twist is one.
    fn add_twisted(&mut self, other: &Bits) {
        self.add(other);
    }

    fn set_product(&mut self, a: &Bits, b: &Bits) {
        *self = Bits {
            words: a.words & b.words,
        };
    }

    fn gather(bytes: &Bytes, from: u32, _width: u32) -> Bits {
        let words = u64x4::from_array([
            bytes.bits(0, from),
            bytes.bits(64, from),
            bytes.bits(128, from),
            bytes.bits(192, from),
        ]);
        Bits { words }
    }

    // The parity of the number of ones.
    fn sum(&self, _width: u32) -> u128 {
        let [a, b, c, d] = self.words.to_array();
        u128::from((a ^ b ^ c ^ d).count_ones() % 2)
    }
}
