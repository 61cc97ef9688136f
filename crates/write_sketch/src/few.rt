//! The sums of few leaves, by tables.
ghost use Rattle.std.specs.Prelude.{◌≡◌, length, bit_xor};
ghost use Rattle.audit_rules.specs.Audit.{product};
ghost use Rattle.audit_rules.specs.Challenges.{sums_under};

use crate::eight::refresh;
use audit_rules::Sums;
use field_tables::{Tables, mul_fast};

// The sums with one box more, whose leaf is `w`, by three products.
fn with_box(tables: &Tables, sums: Sums, w: u128, r: u128, s: u128) -> Sums
    ensures added { result ≡ record {
      x = bit_xor sums.x (product w r);
      y = bit_xor sums.y (product w s);
      m = bit_xor sums.m w;
      z = bit_xor sums.z (product (product w r) s);
    } }
{
    let by_r = mul_fast(tables, w, r);
    Sums {
        x: sums.x ^ by_r,
        y: sums.y ^ mul_fast(tables, w, s),
        m: sums.m ^ w,
        z: sums.z ^ mul_fast(tables, by_r, s),
    }
}

/// The four sums of leaves, box by box.
pub fn few_sums(states: &[u128], addresses: &[u128], ckey: &[u8; 32]) -> Sums
    requires { length states.now ≡ length addresses.now }
    ensures sums { result ≡ sums_under ckey.now addresses.now states.now }
{
    let tables = Tables::new();
    let mut sums = Sums {
        x: 0,
        y: 0,
        m: 0,
        z: 0,
    };
    let mut eight = [(0, 0); 8];
    for i in 0..states.len() {
        refresh(ckey, addresses, i, &mut eight);
        let (r, s) = eight[i % 8];
        sums = with_box(&tables, sums, states[i], r, s);
    }
    sums
}
