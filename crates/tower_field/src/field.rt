//! What generic code may use of a field, and of a level of the tower.
ghost use Rattle.std.specs.Prelude.{◌≡◌, ◌≢◌, Bool, Some, None};
ghost use Rattle.tower_laws.specs.Laws.{FieldLaws, TowerLaws};

/// A field of characteristic two.
pub trait Field: Copy + Eq {
    ghost neutral: { Self };

    ghost unit: { Self };

    ghost sum: { Self → Self → Self };

    ghost product: { Self → Self → Self };

    /// Of zero it is any value: no call gives it.
    ghost inverse: { Self → Self };

    /// The value that adds nothing.
    fn zero() -> Self
        ensures { result ≡ neutral };

    /// The value whose product with any other is that other.
    fn one() -> Self
        ensures { result ≡ unit };

    /// The sum, which is the difference too.
    fn add(self, other: Self) -> Self
        ensures { result ≡ sum self other };

    /// The product.
    fn mul(self, other: Self) -> Self
        ensures { result ≡ product self other };

    /// The product with itself.
    fn square(self) -> Self
        ensures { result ≡ product self self };

    /// The value that gives one as product with this one; None exactly at zero.
    fn invert(self) -> Option<Self>
        ensures none { self ≡ neutral → result ≡ None }
        ensures some { self ≢ neutral → result ≡ Some (inverse self) };

    ghost field_laws: { FieldLaws neutral unit sum product inverse Self.PartialEq.eq };
}

/// A level of the tower, on which the next one stands.
pub trait Tower: Field {
    ghost constant: { Self };

    ghost parity: { Self → Bool };

    /// The c of X² = c·X + 1, by which the next level is made.
    fn twist() -> Self
        ensures { result ≡ constant };

    /// The absolute trace, where true stands for one.
    fn trace(self) -> bool
        ensures { result ≡ parity self };

    ghost tower_laws: { TowerLaws Self.sum Self.product Self.inverse constant parity };
}
