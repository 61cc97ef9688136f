//! The sums of products at 256 places.
ghost use Rattle.std.specs.Prelude.{◌≡◌, ℕ, ◌<◌, slice_index};
ghost use Rattle.tower_numbers.specs.Levels.{product_at};
ghost use Rattle.sliced_sums.specs.Places.{sum_over};

use crate::bits::Bits;
use crate::bytes::Bytes;
use crate::level::Level;
use tower_laws::Quad;

type Level3 = Quad<Quad<Quad<Bits>>>;

type Level7 = Quad<Quad<Quad<Quad<Level3>>>>;

/// The sums of products of three lists w, r and s.
#[derive(Clone, Copy, Debug, PartialEq, Eq)]
pub struct ProductSums {
    /// The sum of w_i·r_i.
    pub x: u128,
    /// The sum of w_i·s_i.
    pub y: u128,
    /// The sum of w_i·r_i·s_i.
    pub z: u128,
}

fn gathered<K: Level>(numbers: &[u128; 256]) -> K
    requires { K.level ≡ 7 }
    ensures { (j : ℕ) → j < 256 → K.at result j ≡ slice_index numbers.now j }
{
    K::gather(&Bytes::of(numbers), 0, 128)
}

fn sums_in<K: Level>(w: &[u128; 256], r: &[u128; 256], s: &[u128; 256]) -> ProductSums
    requires { K.level ≡ 7 }
    ensures x { result.x ≡ sum_over 256 (λ j. product_at 7 (slice_index w.now j) (slice_index r.now j)) }
    ensures y { result.y ≡ sum_over 256 (λ j. product_at 7 (slice_index w.now j) (slice_index s.now j)) }
    ensures z { result.z ≡ sum_over 256 (λ j.
        product_at 7 (product_at 7 (slice_index w.now j) (slice_index r.now j)) (slice_index s.now j)) }
{
    let w: K = gathered(w);
    let r: K = gathered(r);
    let s: K = gathered(s);
    let mut product = K::zero();
    product.set_product(&w, &s);
    let y = product.sum(128);
    product.set_product(&w, &r);
    let x = product.sum(128);
    let by_r = product;
    product.set_product(&by_r, &s);
    ProductSums {
        x,
        y,
        z: product.sum(128),
    }
}

/// The sums of w·r, of w·s and of w·r·s at 256 places.
pub fn sums_of_256(w: &[u128; 256], r: &[u128; 256], s: &[u128; 256]) -> ProductSums
    ensures x { result.x ≡ sum_over 256 (λ j. product_at 7 (slice_index w.now j) (slice_index r.now j)) }
    ensures y { result.y ≡ sum_over 256 (λ j. product_at 7 (slice_index w.now j) (slice_index s.now j)) }
    ensures z { result.z ≡ sum_over 256 (λ j.
        product_at 7 (product_at 7 (slice_index w.now j) (slice_index r.now j)) (slice_index s.now j)) }
{
    sums_in::<Level7>(w, r, s)
}
