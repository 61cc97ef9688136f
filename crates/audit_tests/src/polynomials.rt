//! Worked values, and generic code at three fields.
ghost use Rattle.std.specs.Prelude.{◌≡◌, length};

use poly_roots::{eval, through3, times};
use tower_field::{Bit, Field, Gf128, Quad, Tower};

#[test]
fn three_values_give_their_polynomial(rt: HostRuntime) {
    let f = through3(0, 2, 1);
    assert_eq!(rt; f, [0, 0, 2]);
    let coefficients = f.map(|c| Gf128(c));
    assert_eq!(rt; eval(&coefficients, Gf128(4)).value(), 14);
}

/// That the square of x + 1 is x² + 1, which is zero at one and one at zero.
fn squares<F: Field>(p: &[F], square: &mut [F]) -> bool
    requires p { length p.now ≡ 2 }
    requires square { length square.old ≡ 3 }
{
    times(p, p, square);
    let expands = square[0] == F::one() && square[1] == F::zero() && square[2] == F::one();
    expands && eval(square, F::one()) == F::zero() && eval(square, F::zero()) == F::one()
}

#[test]
fn a_square_expands_over_three_fields(rt: HostRuntime) {
    let one = Quad::<Bit>::one();
    let told = [
        squares(&[Bit(true); 2], &mut [Bit(false); 3]),
        squares(&[one; 2], &mut [one; 3]),
        squares(&[Gf128(1); 2], &mut [Gf128(7); 3]),
        eval(&[], Bit::twist()) == Bit::zero(),
    ];
    assert!(rt; told == [true; 4]);
}
