//! The next level over a level, as a field and a level of the tower.
ghost use Rattle.tower_laws.specs.Quads.{quad, quad_add, quad_mul, quad_inverse, quad_trace};
ghost use Rattle.tower_laws.proofs.QuadLaws.{quad_laws, quad_tower_laws};

use crate::field::{Field, Tower};
use tower_laws::Quad;

impl<K: Tower> Field for Quad<K> {
    ghost neutral = { quad K.neutral K.neutral };

    ghost unit = { quad K.unit K.neutral };

    ghost sum = { quad_add K.sum };

    ghost product = { quad_mul K.sum K.product K.constant };

    ghost inverse = { quad_inverse K.sum K.product K.inverse K.constant };

    ghost field_laws = { quad_laws K.field_laws K.tower_laws };

    fn zero() -> Quad<K> {
        Quad {
            low: K::zero(),
            high: K::zero(),
        }
    }

    fn one() -> Quad<K> {
        Quad {
            low: K::one(),
            high: K::zero(),
        }
    }

    fn add(self, other: Quad<K>) -> Quad<K> {
        Quad {
            low: self.low.add(other.low),
            high: self.high.add(other.high),
        }
    }

    fn mul(self, other: Quad<K>) -> Quad<K> {
        let highs = self.high.mul(other.high);
        let low = self.low.mul(other.low).add(highs);
        let crossed = self.low.mul(other.high).add(self.high.mul(other.low));
        Quad {
            low,
            high: crossed.add(K::twist().mul(highs)),
        }
    }

    fn square(self) -> Quad<K> {
        self.mul(self)
    }

    fn invert(self) -> Option<Quad<K>> {
        let turned = self.low.add(self.high.mul(K::twist()));
        let norm = self
            .low
            .square()
            .add(self.low.mul(self.high).mul(K::twist()))
            .add(self.high.square());
        match norm.invert() {
            Some(by) => Some(Quad {
                low: turned.mul(by),
                high: self.high.mul(by),
            }),
            None => None,
        }
    }
}

impl<K: Tower> Tower for Quad<K> {
    ghost constant = { quad K.neutral K.unit };

    ghost parity = { quad_trace K.product K.constant K.parity };

    ghost tower_laws = { quad_tower_laws K.field_laws K.tower_laws };

    fn twist() -> Quad<K> {
        Quad {
            low: K::zero(),
            high: K::one(),
        }
    }

    fn trace(self) -> bool {
        self.high.mul(K::twist()).trace()
    }
}
