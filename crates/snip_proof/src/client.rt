//! What a client proves.
ghost use Rattle.std.specs.Prelude.{◌≡◌, bit_xor};
ghost use Rattle.tower_laws.specs.Polynomials.{times_of};
ghost use Rattle.audit_rules.specs.Audit.{product, zero_share, one_share, honest_f, honest_g};

use crate::polynomials::{plus, through, times};
use express_words::ProofShare;
use field_tables::{Tables, mul_fast};

// Server 0's share is drawn.
fn zero_share(choices: &[u128; 16]) -> ProofShare
    ensures share { result ≡ zero_share choices.now }
{
    ProofShare {
        u: choices[2],
        v: choices[4],
        h: [choices[6], choices[7], choices[8], choices[9], choices[10]],
        a: choices[11],
        b: choices[13],
        c: choices[15],
    }
}

// The product of f and g, the polynomials through the whole sums.
fn whole_h(tables: &Tables, m: u128, r: u128, s: u128, choices: &[u128; 16]) -> [u128; 5]
    ensures product { result ≡ times_of 0 bit_xor product (honest_f m r choices.now) (honest_g m r s choices.now) }
{
    let x = mul_fast(tables, m, r);
    let y = mul_fast(tables, m, s);
    let z = mul_fast(tables, x, s);
    let f = through(tables, choices[2] ^ choices[3], x, m);
    let g = through(tables, choices[4] ^ choices[5], y, z);
    times(tables, &f, &g)
}

/// The two servers' shares of the proof that a write changes one box alone: `m` is the sum of both leaves at the
/// write's target, `r` and `s` are the challenge there, and `choices` are the sixteen words that the client drew for
/// the write.
pub fn prove(m: u128, r: u128, s: u128, choices: &[u128; 16]) -> (ProofShare, ProofShare)
    ensures zero { result.0 ≡ zero_share choices.now }
    ensures one { result.1 ≡ one_share m r s choices.now }
{
    let tables = Tables::new();
    let zero = zero_share(choices);
    let h = whole_h(&tables, m, r, s, choices);
    let a = choices[11] ^ choices[12];
    let b = choices[13] ^ choices[14];
    let one = ProofShare {
        u: choices[3],
        v: choices[5],
        h: plus(&h, &zero.h),
        a: choices[12],
        b: choices[14],
        c: mul_fast(&tables, a, b) ^ choices[15],
    };
    (zero, one)
}
