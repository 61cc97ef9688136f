//! Both servers' audit of a write as one call, and the two laws on what they accept. The laws' functions
//! only read their arguments: their contracts are the laws.
ghost use Rattle.std.specs.Prelude.{◌≡◌, ◌≢◌, ℕ, ◌<◌, ◌≤◌, ◌↔◌, ◌⊎◌, length, All, AllPairs, IsTrue, slice_index};
ghost use Rattle.audit_rules.specs.Audit.{difference};
ghost use Rattle.audit_rules.specs.BadWrites.{HasTwo};
ghost use Rattle.snip_proof.specs.Passing.{AgreeElsewhere, HonestLeavesPass, IsCaught, LeavesPass, WholePasses};

use crate::both::{ProofShares, WriteLeaves};
use crate::servers::{close_share, judge, open_share};
use audit_rules::{read_share, read_words, servers_accept_what_passes};
use express_words::Openings;
use write_sketch::sums;

/// Whether both servers accept at the point `sigma` a write with these leaves at the registered addresses:
/// exactly where the whole proof passes for the sums of the difference of their leaves.
pub fn servers_accept(
    leaves: WriteLeaves,
    addresses: &[u128],
    ckey: &[u8; 32],
    shares: ProofShares,
    sigma: u128,
) -> bool
    requires zero { length leaves.zero.now ≡ length addresses.now }
    requires one { length leaves.one.now ≡ length addresses.now }
    ensures accept { IsTrue result ↔ LeavesPass leaves.entry.zero.now leaves.entry.one.now
        ckey.now addresses.now shares.entry.zero.now shares.entry.one.now sigma }
    ensures passes { IsTrue result ↔ WholePasses leaves.entry.zero.now leaves.entry.one.now
        ckey.now addresses.now shares.entry.zero.now shares.entry.one.now sigma }
{
    read_words(leaves.zero);
    read_words(leaves.one);
    let sums0 = sums(leaves.zero, addresses, ckey);
    let sums1 = sums(leaves.one, addresses, ckey);
    let opening0 = open_share(&sums0, shares.zero, sigma);
    let opening1 = open_share(&sums1, shares.one, sigma);
    let opened = Openings {
        d: opening0.d ^ opening1.d,
        e: opening0.e ^ opening1.e,
    };
    let closing0 = close_share(0, &sums0, shares.zero, sigma, &opened);
    let closing1 = close_share(1, &sums1, shares.one, sigma, &opened);
    servers_accept_what_passes(&sums0, &sums1, shares.zero, shares.one, sigma);
    judge(&closing0, &closing1)
}

/// The soundness law on what the servers accept. Where the difference of both servers' leaves has two
/// places or more that aren't zero, a proof is accepted at five points at most, unless r at the first of
/// them or s at the last is the one bad value.
pub fn accepted_points_are_few(
    leaves: WriteLeaves,
    addresses: &[u128],
    ckey: &[u8; 32],
    shares: ProofShares,
    points: &[u128],
)
    requires zero { length leaves.zero.now ≡ length addresses.now }
    requires one { length leaves.one.now ≡ length addresses.now }
    requires two { HasTwo (difference leaves.zero.now leaves.one.now) }
    requires distinct { AllPairs (λ p q. p ≢ q) points.now }
    requires accepted { All (LeavesPass leaves.zero.now leaves.one.now ckey.now addresses.now
        shares.zero.now shares.one.now) points.now }
    ensures caught { IsCaught (difference leaves.entry.zero.now leaves.entry.one.now)
        ckey.now addresses.now points.now }
{
    read_words(leaves.zero);
    read_words(leaves.one);
    read_share(shares.zero);
    read_share(shares.one);
    read_words(points);
}

/// Honest writes are accepted. Where both servers' leaves are equal at every address but the target's,
/// which stands at `place` of distinct addresses, the client's proof is accepted at every point.
pub fn honest_writes_are_accepted(
    leaves: WriteLeaves,
    addresses: &[u128],
    place: usize,
    ckey: &[u8; 32],
    choices: &[u128; 16],
    sigma: u128,
)
    requires zero { length leaves.zero.now ≡ length addresses.now }
    requires one { length leaves.one.now ≡ length addresses.now }
    requires place { place < length addresses.now }
    requires distinct { AllPairs (λ p q. p ≢ q) addresses.now }
    requires equal { AgreeElsewhere leaves.zero.now leaves.one.now addresses.now place }
    ensures accepted { HonestLeavesPass leaves.entry.zero.now leaves.entry.one.now place
        ckey.now addresses.now choices.now sigma }
{
    read_words(leaves.zero);
    read_words(leaves.one);
    read_words(choices);
}
