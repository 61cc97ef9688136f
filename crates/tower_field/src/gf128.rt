//! Level 7 of the tower, the field of 2^128 elements, as numbers.
ghost use Rattle.std.specs.Prelude.{◌≡◌, ◌<◌, ◌^◌};
ghost use Rattle.tower_laws.specs.Elements.{Element, element_zero, element_one, element_add, element_mul, element_inverse};
ghost use Rattle.tower_laws.proofs.ElementLaws.{level_laws};
ghost use Rattle.tower_laws.specs.Gf.{gf};
ghost use Rattle.std.proofs.Math.Nat.{mod-eq_of_lt};

use crate::field::Field;
use crate::halves::{inverse, product};
use std::marker::Model;

/// An element of level 7. The low 64 bits of its number are its low half.
#[derive(Clone, Copy, Debug, PartialEq, Eq)]
pub struct Gf128(pub u128);

impl Model for Gf128 {
    ghost Value = { Element 7 };

    ghost view = { λ s. gf s.0 };

    ghost invariant = { λ s. s.0 < 2 ^ 128 };

    ghost inverse = { λ v. record { 0 = v.value } };
}

impl Gf128 {
    /// The element's number.
    pub fn value(self) -> u128
        ensures { result ≡ self.value }
    {
        self.0
    }
}

impl Field for Gf128 {
    ghost neutral = { element_zero 7 };

    ghost unit = { element_one 7 };

    ghost sum = { element_add 7 };

    ghost product = { element_mul 7 };

    ghost inverse = { element_inverse 7 };

    ghost field_laws = { (level_laws 7).0 };

    fn zero() -> Gf128 {
        Gf128(0)
    }

    fn one() -> Gf128 {
        Gf128(1)
    }

    fn add(self, other: Gf128) -> Gf128 {
        Gf128(self.0 ^ other.0)
    }

    fn mul(self, other: Gf128) -> Gf128 {
        Gf128(product(7, self.0, other.0))
    }

    fn square(self) -> Gf128 {
        self.mul(self)
    }

    fn invert(self) -> Option<Gf128> {
        if self.0 == 0 {
            return None;
        }
        Some(Gf128(inverse(7, self.0)))
    }
}
