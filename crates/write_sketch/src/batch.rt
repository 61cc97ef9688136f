//! The sums of a batch of 256 leaves, by products in bit slices.
ghost use Rattle.std.specs.Prelude.{◌≡◌, length, bit_xor};
ghost use Rattle.audit_rules.specs.Sketch.{total};
ghost use Rattle.audit_rules.specs.Challenges.{challenge_rs, challenge_ss, sums_under};

use crate::eight::refresh;
use audit_rules::Sums;
use sliced_sums::sums_of_256;

/// The number of leaves of a batch.
pub const BATCH: usize = 256;

// The challenges at the addresses of a batch.
fn challenges_of(ckey: &[u8; 32], addresses: &[u128]) -> ([u128; BATCH], [u128; BATCH])
    requires { length addresses.now ≡ 256 }
    ensures r { result.0 ≡ challenge_rs ckey.now addresses.now }
    ensures s { result.1 ≡ challenge_ss ckey.now addresses.now }
{
    let mut rs = [0; BATCH];
    let mut ss = [0; BATCH];
    let mut eight = [(0, 0); 8];
    for i in 0..BATCH {
        refresh(ckey, addresses, i, &mut eight);
        (rs[i], ss[i]) = eight[i % 8];
    }
    (rs, ss)
}

// The sum of leaves.
fn total_of(states: &[u128]) -> u128
    ensures { result ≡ total 0 bit_xor states.now }
{
    let mut total = 0;
    for i in 0..states.len() {
        total ^= states[i];
    }
    total
}

/// The four sums of a batch of leaves.
pub fn batch_sums(states: &[u128], addresses: &[u128], ckey: &[u8; 32]) -> Sums
    requires states { length states.now ≡ 256 }
    requires addresses { length addresses.now ≡ 256 }
    ensures { result ≡ sums_under ckey.now addresses.now states.now }
{
    let mut leaves = [0; BATCH];
    leaves.copy_from_slice(states);
    let (rs, ss) = challenges_of(ckey, addresses);
    let products = sums_of_256(&leaves, &rs, &ss);
    Sums {
        x: products.x,
        y: products.y,
        m: total_of(states),
        z: products.z,
    }
}
