//! Laws over the definitions. The functions only read their arguments, from which a proof learns that they
//! are in range: their contracts are the laws.
ghost use Rattle.std.specs.Prelude.{◌≡◌, ◌≢◌, ℕ, ◌+◌, ◌*◌, ◌^◌, ◌<◌, ◌≤◌, length, All, AllPairs};
ghost use Rattle.batch_audit.specs.Batch.{os, taus, count_bad, BatchPasses, FewValuesPass};
ghost use Rattle.batch_audit.specs.Sorting.{Sorted, RejectedAreBad, OthersAreGoodOrMissed, SortsAreOne};

use audit_rules::read_words;
use express_words::Closing;

// Both words of every closing are numbers of the field.
fn read_closings(closings: &[Closing])
    ensures o { All (λ n. n < 2 ^ 128) (os closings.now) }
    ensures tau { All (λ n. n < 2 ^ 128) (taus closings.now) }
{
    for closing in closings {
        read_closing(closing);
    }
}

fn read_closing(closing: &Closing)
    ensures o { closing.now.o < 2 ^ 128 }
    ensures tau { closing.now.tau < 2 ^ 128 }
{
    let _o = closing.o;
    let _tau = closing.tau;
}

/// The law of bad values. Where one of k pairs isn't good, at most k - 1 distinct values of rho let their
/// batch pass. So a pair alone that isn't good passes at none.
pub fn bad_values_are_few(zero: &[Closing], one: &[Closing], values: &[u128])
    requires lengths { length one.now ≡ length zero.now }
    requires bad { 0 < count_bad zero.now one.now }
    requires distinct { AllPairs (λ p q. p ≢ q) values.now }
    requires pass { All (BatchPasses zero.now one.now) values.now }
    ensures few { length values.now + 1 ≤ length zero.now }
{
    read_closings(zero);
    read_closings(one);
    read_words(values);
}

/// Every pair that a sort rejects isn't good.
pub fn rejected_pairs_are_bad(
    zero: &[Closing],
    one: &[Closing],
    seed: &[u8; 32],
    before: u32,
    judged: u32,
    rejected: &[bool],
)
    requires lengths { length one.now ≡ length zero.now }
    requires rejected { length rejected.now ≡ length zero.now }
    requires sorted { Sorted seed.now zero.now one.now rejected.now before judged }
    ensures bad { RejectedAreBad zero.now one.now rejected.now }
{
    read_closings(zero);
    read_closings(one);
}

/// The bound on the ranges that a sort judges: of at most 2^c pairs, m of which aren't good, 1 + 2·m·c at
/// most.
pub fn judged_ranges_are_few(
    zero: &[Closing],
    one: &[Closing],
    seed: &[u8; 32],
    before: u32,
    judged: u32,
    rejected: &[bool],
)
    requires lengths { length one.now ≡ length zero.now }
    requires sorted { Sorted seed.now zero.now one.now rejected.now before judged }
    ensures few { (c : ℕ) → length zero.now ≤ 2 ^ c
        → judged ≤ before + (1 + 2 * (count_bad zero.now one.now * c)) }
{
    read_closings(zero);
    read_closings(one);
}

/// Every pair that a sort doesn't reject is good, or it stands in a judged range that has a pair that isn't
/// good and passed, at one of the few bad values of that range.
pub fn other_pairs_are_good_or_missed(
    zero: &[Closing],
    one: &[Closing],
    seed: &[u8; 32],
    before: u32,
    judged: u32,
    rejected: &[bool],
)
    requires lengths { length one.now ≡ length zero.now }
    requires rejected { length rejected.now ≡ length zero.now }
    requires sorted { Sorted seed.now zero.now one.now rejected.now before judged }
    ensures others { OthersAreGoodOrMissed seed.now zero.now one.now rejected.now before }
{}

/// What a sort rejects and how many ranges it judges is determined by the pairs and the seed.
pub fn sorts_are_one()
    ensures { SortsAreOne }
{}

/// The law of bad values, of all closings.
pub fn few_values_pass()
    ensures { FewValuesPass }
{}
