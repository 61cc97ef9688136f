//! Products of polynomials, by their coefficients.
ghost use Rattle.std.specs.Prelude.{◌≡◌, ◌+◌, ◌<◌, ◌≤◌, length};
ghost use Rattle.tower_laws.specs.Polynomials.{value_at, plus_of, scaled_of, times_of};

use tower_field::Field;

// Adds `c` times `q` to the front of `out`.
fn add_scaled<F: Field>(c: F, q: &[F], out: &mut [F])
    requires { length q.now ≤ length out.old }
    ensures { out.new ≡ plus_of F.sum (scaled_of F.product c q.now) out.old }
{
    for j in 0..q.len() {
        out[j] = out[j].add(c.mul(q[j]));
    }
}

// Writes `c` times `q`.
fn put_scaled<F: Field>(c: F, q: &[F], out: &mut [F])
    requires { length out.old ≡ length q.now }
    ensures { out.new ≡ scaled_of F.product c q.now }
{
    for j in 0..q.len() {
        out[j] = c.mul(q[j]);
    }
}

/// Writes the coefficients of the product of `p` and `q`, whatever `out` held. Neither list is empty, and `out` is one
/// shorter than both together.
pub fn times<F: Field>(p: &[F], q: &[F], out: &mut [F])
    requires p { 0 < length p.now }
    requires q { 0 < length q.now }
    requires room { length out.old + 1 ≡ length p.now + length q.now }
    ensures product { out.new ≡ times_of F.neutral F.sum F.product p.now q.now }
    ensures values { let value = value_at F.neutral F.sum F.product in
        (x : F) → value out.new x ≡ F.product (value p.now x) (value q.now x) }
{
    let last = p.len() - 1;
    put_scaled(p[last], q, &mut out[last..]);
    let mut left = last;
    while left > 0 {
        left -= 1;
        out[left] = F::zero();
        add_scaled(p[left], q, &mut out[left..]);
    }
}
