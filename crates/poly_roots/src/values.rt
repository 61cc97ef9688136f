//! A polynomial's value at a point.
ghost use Rattle.std.specs.Prelude.{◌≡◌};
ghost use Rattle.tower_laws.specs.Polynomials.{value_at};

use tower_field::Field;

/// The value of `p` at the point `at`, where `p` has the coefficients from the constant upwards. The empty list gives
/// zero.
pub fn eval<F: Field>(p: &[F], at: F) -> F
    ensures value { result ≡ value_at F.neutral F.sum F.product p.now at }
{
    let mut value = F::zero();
    let mut left = p.len();
    while left > 0 {
        left -= 1;
        value = p[left].add(at.mul(value));
    }
    value
}
