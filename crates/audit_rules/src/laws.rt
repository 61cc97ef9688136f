//! Laws over the definitions. The functions only read their arguments, from which a proof learns that they
//! are in range: their contracts are the laws.
ghost use Rattle.std.specs.Prelude.{◌≡◌, ◌≢◌, ℕ, ◌<◌, ◌≤◌, ◌↔◌, ◌⊎◌, length, All, AllPairs, slice_index};
ghost use Rattle.audit_rules.specs.Audit.{sums_of, bad_r_divisor, bad_s, PassesAt, ServersAccept, whole_sums, whole_proof, difference, zero_share, one_share};
ghost use Rattle.audit_rules.specs.BadWrites.{HasTwo, first_place, last_place, IsFirst, IsLast, IsBadChallenge};
ghost use Rattle.audit_rules.specs.Laws.{BadRIsFixed, BadSIsFixed, ChangesAreSeen, ClosingsAddUp, ValuesInRange, ValuesAccept, AcceptedPasses};
ghost use Rattle.audit_rules.specs.Alone.{IsAlone, sums_alone};
ghost use Rattle.audit_rules.specs.Worked.{ThreeOnesAreCaught, SquaresHideThreeOnes, OneIsTheBadValue, TwoOnesAreHidden, RightProofPasses, WrongConstantIsRefused, WrongTripleHidesAtOnePoint};

use crate::ranges::{read_share, read_sums, read_words};
use crate::sums::Sums;
use express_words::ProofShare;

/// The two values of a challenge that can hide a vector. Where `w` has two places or more that aren't zero,
/// `a` the first and `b` the last of them, what divides in the bad value of r at a is zero exactly where s
/// at b is its bad value.
pub fn bad_values_hide(w: &[u128], s: &[u128])
    requires s { length s.now ≡ length w.now }
    requires two { HasTwo w.now }
    ensures first { IsFirst w.now (first_place w.now) }
    ensures last { IsLast w.now (last_place w.now) }
    ensures apart { first_place w.now < last_place w.now }
    ensures divisor { let a = first_place w.now in
        let b = last_place w.now in
        bad_r_divisor w.now s.now a ≡ 0 ↔ slice_index s.now b ≡ bad_s w.now s.now a b }
{
    read_words(w);
    read_words(s);
}

/// Neither bad value depends on the challenge at its own place.
pub fn bad_values_are_fixed()
    ensures r { BadRIsFixed }
    ensures s { BadSIsFixed }
{}

/// A write whose bytes differ between the servers at two boxes or more has two places or more in its
/// difference vector that aren't zero.
pub fn changed_boxes_are_seen()
    ensures { ChangesAreSeen }
{}

/// The soundness law. Where `w` has two places or more that aren't zero, a proof passes at five points at
/// most, unless r at the first of them or s at the last is the one bad value.
pub fn bad_writes_are_caught(
    w: &[u128],
    r: &[u128],
    s: &[u128],
    proof: &ProofShare,
    points: &[u128],
)
    requires r { length r.now ≡ length w.now }
    requires s { length s.now ≡ length w.now }
    requires two { HasTwo w.now }
    requires distinct { AllPairs (λ p q. p ≢ q) points.now }
    requires passes { All (PassesAt (sums_of w.now r.now s.now) proof.now) points.now }
    ensures caught { IsBadChallenge w.now r.now s.now ⊎ (length points.now ≤ 5) }
{
    read_words(w);
    read_words(r);
    read_words(s);
    read_share(proof);
    read_words(points);
}

/// What two servers accept at a point: both closings add up to zero exactly where the whole proof passes
/// for the whole sums.
pub fn servers_accept_what_passes(
    sums0: &Sums,
    sums1: &Sums,
    share0: &ProofShare,
    share1: &ProofShare,
    sigma: u128,
)
    ensures passes { ServersAccept sums0.now sums1.now share0.now share1.now sigma
        ↔ PassesAt (whole_sums sums0.now sums1.now) (whole_proof share0.now share1.now) sigma }
{
    read_sums(sums0);
    read_sums(sums1);
    read_share(share0);
    read_share(share1);
}

/// What both servers' closings add up to at their common openings, whether or not they accept: both o to
/// h(1) + h(2), and both tau to σ·(f(σ)·g(σ) + h(σ)) + (a·b + c), with the polynomials and the triple of the whole
/// proof.
pub fn closings_add_up(
    sums0: &Sums,
    sums1: &Sums,
    share0: &ProofShare,
    share1: &ProofShare,
    sigma: u128,
)
    ensures { ClosingsAddUp sums0.now sums1.now share0.now share1.now sigma }
{
    read_sums(sums0);
    read_sums(sums1);
    read_share(share0);
    read_share(share1);
}

/// What both servers' values of an audit are: numbers of the field, by which the closings accept exactly
/// where both servers accept, and so where the whole proof passes for the difference vector.
pub fn values_accept()
    ensures in_range { ValuesInRange }
    ensures accept { ValuesAccept }
    ensures passes { AcceptedPasses }
{}

/// The sums of both servers' vectors add up to those of the difference vector.
pub fn sums_add_up(zero: &[u128], one: &[u128], r: &[u128], s: &[u128])
    requires { length zero.now ≡ length one.now }
    ensures { whole_sums (sums_of zero.now r.now s.now) (sums_of one.now r.now s.now)
        ≡ sums_of (difference zero.now one.now) r.now s.now }
{
    read_words(zero);
    read_words(one);
    read_words(r);
    read_words(s);
}

/// A client's proof passes at every point: for a vector that is zero everywhere but at `place`, with the
/// value and the challenge of that place.
pub fn honest_proofs_pass(
    w: &[u128],
    r: &[u128],
    s: &[u128],
    place: usize,
    words: &[u128; 16],
    sigma: u128,
)
    requires r { length r.now ≡ length w.now }
    requires s { length s.now ≡ length w.now }
    requires place { place < length w.now }
    requires alone { IsAlone w.now place }
    ensures passes { let share1 = one_share (slice_index w.now place) (slice_index r.now place) (slice_index s.now place) words.now in
        PassesAt (sums_of w.now r.now s.now) (whole_proof (zero_share words.now) share1) sigma }
{
    read_words(w);
    read_words(r);
    read_words(s);
    read_words(words);
}

/// Three worked sketches. Three places that aren't zero are caught by two challenge vectors and hidden where one serves
/// for both; two places are hidden from every r by the bad value of s, which is 1.
pub fn worked_sketches()
    ensures caught { ThreeOnesAreCaught }
    ensures squares { SquaresHideThreeOnes }
    ensures bad { OneIsTheBadValue }
    ensures hidden { TwoOnesAreHidden }
{}

/// A worked proof: the right one passes at the point 4, one with another constant of h doesn't, and a triple that hides
/// that at 4 hides it at no other point.
pub fn worked_proof()
    ensures passes { RightProofPasses }
    ensures refused { WrongConstantIsRefused }
    ensures hidden { WrongTripleHidesAtOnePoint }
{}
