//! How many roots a polynomial has.
ghost use Rattle.std.specs.Prelude.{◌≡◌, ◌≢◌, ◌<◌, length, All, Any, AllPairs};
ghost use Rattle.tower_laws.specs.Polynomials.{value_at};

use tower_field::Field;

/// The law of roots: a list of distinct roots of a polynomial with a coefficient that isn't zero is shorter than its
/// list of coefficients.
pub fn roots_are_few<F: Field>(p: &[F], roots: &[F])
    requires some { Any (λ c. c ≢ F.neutral) p.now }
    requires distinct { AllPairs (λ r s. r ≢ s) roots.now }
    requires roots { All (λ r. value_at F.neutral F.sum F.product p.now r ≡ F.neutral) roots.now }
    ensures few { length roots.now < length p.now }
{}
