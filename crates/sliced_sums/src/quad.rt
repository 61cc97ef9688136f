//! The next level over a level, at 256 places.
ghost use Rattle.std.specs.Prelude.{◌+◌, ◌*◌, ◌^◌};
ghost use Rattle.std.proofs.Common.{suc};
ghost use Rattle.tower_numbers.proofs.Bounds.{joined_below};

use crate::bytes::Bytes;
use crate::level::Level;
use tower_laws::Quad;

impl<K: Level> Level for Quad<K> {
    ghost level = { suc K.level };

    ghost at = { λ x j. K.at x.high j * 2 ^ (2 ^ K.level) + K.at x.low j };

    ghost below = { λ x j. joined_below K.level _ _ (K.below x.low j) (K.below x.high j) };

    fn zero() -> Quad<K> {
        Quad {
            low: K::zero(),
            high: K::zero(),
        }
    }

    fn add(&mut self, other: &Quad<K>) {
        self.low.add(&other.low);
        self.high.add(&other.high);
    }

    // The twist is X, so its product moves the high half down.
    fn add_twisted(&mut self, other: &Quad<K>) {
        self.low.add(&other.high);
        self.high.add(&other.low);
        self.high.add_twisted(&other.high);
    }

    // By three products of halves and one with the twist.
    fn set_product(&mut self, a: &Quad<K>, b: &Quad<K>) {
        let mut left = a.low;
        left.add(&a.high);
        let mut right = b.low;
        right.add(&b.high);
        self.high.set_product(&left, &right);
        self.low.set_product(&a.low, &b.low);
        self.high.add(&self.low);
        left.set_product(&a.high, &b.high);
        self.low.add(&left);
        self.high.add(&left);
        self.high.add_twisted(&left);
    }

    fn gather(bytes: &Bytes, from: u32, width: u32) -> Quad<K> {
        let half = width / 2;
        Quad {
            low: K::gather(bytes, from, half),
            high: K::gather(bytes, from + half, half),
        }
    }

    fn sum(&self, width: u32) -> u128 {
        let half = width / 2;
        let high = self.high.sum(half);
        let low = self.low.sum(half);
        (high << half) | low
    }
}
