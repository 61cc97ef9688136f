//! The polynomial through three values.
ghost use Rattle.std.specs.Prelude.{◌≡◌, bit_xor};
ghost use Rattle.tower_numbers.specs.Levels.{product_at};
ghost use Rattle.tower_laws.specs.Polynomials.{value_at};
ghost use Rattle.tower_laws.specs.Through.{through};

use tower_field::{Field, Gf128};

/// The coefficients, from the constant upwards, of the polynomial of degree at most 2 over the field of 2^128 elements
/// that has the value `u` at 0, `x` at 1 and `m` at 2.
pub fn through3(u: u128, x: u128, m: u128) -> [u128; 3]
    ensures coefficients { result ≡ through bit_xor (product_at 7) 2 u x m }
    ensures at_zero { value_at 0 bit_xor (product_at 7) result 0 ≡ u }
    ensures at_one { value_at 0 bit_xor (product_at 7) result 1 ≡ x }
    ensures at_two { value_at 0 bit_xor (product_at 7) result 2 ≡ m }
{
    let start = Gf128(u);
    let change = start.add(Gf128(x));
    let square = start.add(Gf128(m)).add(Gf128(2).mul(change));
    let slope = square.add(change);
    [start.value(), slope.value(), square.value()]
}
