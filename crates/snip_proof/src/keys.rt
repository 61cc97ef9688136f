//! The two laws for the keys of a write: what both servers accept where their leaves are those of one
//! public part. The functions only read their arguments: their contracts are the laws.
ghost use Rattle.std.specs.Prelude.{◌≢◌, All, AllPairs, Contains};
ghost use Rattle.dpf_rules.specs.Evaluation.{difference_vector};
ghost use Rattle.audit_rules.specs.BadWrites.{HasTwo};
ghost use Rattle.snip_proof.specs.Passing.{AgreeOffTarget, HonestKeysPass, IsCaught, KeysPass};

use crate::both::{ProofShares, WriteKeys};
use audit_rules::{read_bytes, read_share, read_words};

/// The soundness law for any public part and any two roots. Where the difference vector has two places or
/// more that aren't zero, a proof is accepted at five points at most, unless r at the first of them or s at
/// the last is the one bad value.
pub fn bad_keys_are_caught(
    keys: WriteKeys,
    addresses: &[u128],
    ckey: &[u8; 32],
    shares: ProofShares,
    points: &[u128],
)
    requires two { HasTwo (difference_vector keys.part.now keys.root0 keys.root1 addresses.now) }
    requires distinct { AllPairs (λ p q. p ≢ q) points.now }
    requires accepted { All (KeysPass keys.part.now keys.root0 keys.root1 ckey.now addresses.now
        shares.zero.now shares.one.now) points.now }
    ensures caught { IsCaught
        (difference_vector keys.entry.part.now keys.entry.root0 keys.entry.root1 addresses.now)
        ckey.now addresses.now points.now }
{
    read_bytes(keys.part);
    read_words(&[keys.root0, keys.root1]);
    read_share(shares.zero);
    read_share(shares.one);
    read_words(points);
}

/// Honest keys are accepted. Where both servers' leaves are equal at every address but the target, which is
/// one of distinct addresses, the client's proof is accepted at every point.
pub fn honest_keys_are_accepted(
    keys: WriteKeys,
    target: u128,
    addresses: &[u128],
    ckey: &[u8; 32],
    choices: &[u128; 16],
    sigma: u128,
)
    requires equal { AgreeOffTarget keys.part.now keys.root0 keys.root1 target }
    requires distinct { AllPairs (λ p q. p ≢ q) addresses.now }
    requires registered { Contains addresses.now target }
    ensures accepted { HonestKeysPass keys.entry.part.now keys.entry.root0 keys.entry.root1 target
        ckey.now addresses.now choices.now sigma }
{
    read_bytes(keys.part);
    read_words(&[keys.root0, keys.root1]);
    read_words(addresses);
    read_words(choices);
}
