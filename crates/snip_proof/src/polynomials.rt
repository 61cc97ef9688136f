//! Polynomials over the field of 2^128 elements, by the tables' products.
ghost use Rattle.std.specs.Prelude.{◌≡◌, bit_xor};
ghost use Rattle.tower_laws.specs.Polynomials.{plus_of, times_of};
ghost use Rattle.audit_rules.specs.Audit.{product, value, through_three};

use field_tables::{Tables, mul_fast};

/// The value at a point of the polynomial with these coefficients, from the constant upwards.
pub fn value_of(tables: &Tables, p: &[u128], at: u128) -> u128
    ensures value { result ≡ value p.now at }
{
    let mut value = 0;
    let mut left = p.len();
    while left > 0 {
        left -= 1;
        value = p[left] ^ mul_fast(tables, at, value);
    }
    value
}

/// The polynomial of degree at most 2 with these values at 0, 1 and 2.
pub fn through(tables: &Tables, at0: u128, at1: u128, at2: u128) -> [u128; 3]
    ensures coefficients { result ≡ through_three at0 at1 at2 }
{
    let change = at0 ^ at1;
    let square = at0 ^ at2 ^ mul_fast(tables, 2, change);
    [at0, square ^ change, square]
}

/// The product of two polynomials of degree 2.
pub fn times(tables: &Tables, f: &[u128; 3], g: &[u128; 3]) -> [u128; 5]
    ensures product { result ≡ times_of 0 bit_xor product f.now g.now }
{
    let [f0, f1, f2] = *f;
    let [g0, g1, g2] = *g;
    let constant = mul_fast(tables, f0, g0);
    let linear = mul_fast(tables, f0, g1) ^ mul_fast(tables, f1, g0);
    let square = mul_fast(tables, f0, g2) ^ mul_fast(tables, f1, g1) ^ mul_fast(tables, f2, g0);
    let cube = mul_fast(tables, f1, g2) ^ mul_fast(tables, f2, g1);
    [constant, linear, square, cube, mul_fast(tables, f2, g2)]
}

/// The sum of two polynomials of degree 4.
pub fn plus(p: &[u128; 5], q: &[u128; 5]) -> [u128; 5]
    ensures sum { result ≡ plus_of bit_xor p.now q.now }
{
    let [p0, p1, p2, p3, p4] = *p;
    let [q0, q1, q2, q3, q4] = *q;
    [p0 ^ q0, p1 ^ q1, p2 ^ q2, p3 ^ q3, p4 ^ q4]
}
