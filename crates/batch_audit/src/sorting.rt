//! The search for the pairs that make a batch fail.
ghost use Rattle.std.specs.Prelude.{◌≡◌, ◌+◌, ◌*◌, ◌^◌, ◌<◌, ◌≤◌, false, length, All};
ghost use Rattle.batch_audit.specs.Batch.{rho_at};
ghost use Rattle.batch_audit.specs.Sorting.{Sorted, RejectedAreBad, OthersAreGoodOrMissed, FewAreJudged};

use crate::laws::{judged_ranges_are_few, other_pairs_are_good_or_missed, rejected_pairs_are_bad};
use crate::sums::batch_of;
use chacha_expand::draw32;
use dpf_rules::read_number;
use express_words::Closing;
use snip_proof::judge;

// The value of rho where so many ranges were judged before.
fn rho_of(seed: &[u8; 32], judged: u32) -> u128
    ensures { result ≡ rho_at seed.now judged }
{
    let draw = draw32(seed, u64::from(judged));
    read_number(&draw[..16])
}

fn accept_all(rejected: &mut [bool])
    ensures { All (λ r. r ≡ false) rejected.new }
{
    for i in 0..rejected.len() {
        rejected[i] = false;
    }
}

// Sorts a range of pairs at whose start so many ranges were judged, and says how many were at its end.
fn sort_range(
    zero: &[Closing],
    one: &[Closing],
    seed: &[u8; 32],
    judged: u32,
    rejected: &mut [bool],
) -> u32
    requires some { 0 < length zero.now }
    requires one { length one.now ≡ length zero.now }
    requires rejected { length rejected.old ≡ length zero.now }
    requires room { judged + 2 * length zero.now ≤ 2 ^ 22 }
    ensures sorted { Sorted seed.now zero.now one.now rejected.new judged result }
    ensures few { result + 1 ≤ judged + 2 * length zero.now }
{
    let rho = rho_of(seed, judged);
    if judge(&batch_of(zero, rho), &batch_of(one, rho)) {
        accept_all(rejected);
        return judged + 1;
    }
    if zero.len() == 1 {
        rejected[0] = true;
        return judged + 1;
    }
    let half = zero.len() / 2;
    let middle = sort_range(
        &zero[..half],
        &one[..half],
        seed,
        judged + 1,
        &mut rejected[..half],
    );
    sort_range(
        &zero[half..],
        &one[half..],
        seed,
        middle,
        &mut rejected[half..],
    )
}

// Sorts all pairs.
fn sort_all(zero: &[Closing], one: &[Closing], seed: &[u8; 32], rejected: &mut [bool]) -> u32
    requires one { length one.now ≡ length zero.now }
    requires rejected { length rejected.old ≡ length zero.now }
    requires room { length zero.now ≤ 2 ^ 20 }
    ensures sorted { Sorted seed.now zero.now one.now rejected.new 0 result }
    ensures none { length zero.now ≡ 0 → result ≡ 0 }
{
    if zero.is_empty() {
        return 0;
    }
    sort_range(zero, one, seed, 0, rejected)
}

/// Says of each of at most 2^20 pairs whether it is rejected, and how many ranges were judged. The values of
/// rho are drawn from `seed`, one for each range. It takes no memory.
pub fn sort_out(zero: &[Closing], one: &[Closing], seed: &[u8; 32], rejected: &mut [bool]) -> u32
    requires one { length one.now ≡ length zero.now }
    requires rejected { length rejected.old ≡ length zero.now }
    requires room { length zero.now ≤ 2 ^ 20 }
    ensures sorted { Sorted seed.now zero.now one.now rejected.new 0 result }
    ensures bad { RejectedAreBad zero.now one.now rejected.new }
    ensures others { OthersAreGoodOrMissed seed.now zero.now one.now rejected.new 0 }
    ensures few { FewAreJudged zero.now one.now result }
    ensures none { length zero.now ≡ 0 → result ≡ 0 }
{
    let judged = sort_all(zero, one, seed, rejected);
    rejected_pairs_are_bad(zero, one, seed, 0, judged, rejected);
    judged_ranges_are_few(zero, one, seed, 0, judged, rejected);
    other_pairs_are_good_or_missed(zero, one, seed, 0, judged, rejected);
    judged
}
