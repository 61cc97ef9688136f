//! Level 0 as a field and a level of the tower.
ghost use Rattle.tower_laws.specs.Bits.{bit_zero, bit_one, bit_add, bit_mul, bit_inverse, bit_trace};
ghost use Rattle.tower_laws.proofs.BitLaws.{bit_laws, bit_tower_laws};

use crate::field::{Field, Tower};
use tower_laws::Bit;

impl Field for Bit {
    ghost neutral = { bit_zero };

    ghost unit = { bit_one };

    ghost sum = { bit_add };

    ghost product = { bit_mul };

    ghost inverse = { bit_inverse };

    ghost field_laws = { bit_laws };

    fn zero() -> Bit {
        Bit(false)
    }

    fn one() -> Bit {
        Bit(true)
    }

    fn add(self, other: Bit) -> Bit {
        Bit(self.0 ^ other.0)
    }

    fn mul(self, other: Bit) -> Bit {
        Bit(self.0 & other.0)
    }

    fn square(self) -> Bit {
        self
    }

    fn invert(self) -> Option<Bit> {
        if self.0 { Some(self) } else { None }
    }
}

impl Tower for Bit {
    ghost constant = { bit_one };

    ghost parity = { bit_trace };

    ghost tower_laws = { bit_tower_laws };

    fn twist() -> Bit {
        Bit(true)
    }

    fn trace(self) -> bool {
        self.0
    }
}
