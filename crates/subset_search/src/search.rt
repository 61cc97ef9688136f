//! The search.
ghost use Rattle.std.specs.Prelude.{◌≡◌, ◌<◌, ◌≤◌, ◌↔◌, ℕ, List, Bool, false, length, map, All, IsTrue};
ghost use Rattle.std.specs.Prelude.{slice_index_or};
ghost use Rattle.subset_search.specs.Subsets.{added, IsSubset, chosen_below, boxes_at, HasNone};

use dpf_rules::xor_into;
use std::convert::AsSlice;

/// What sums are tried for.
pub trait Target {
    ghost IsMet: { Self → List ℕ → Type 0 };

    /// Whether a sum meets it.
    fn is_met(&self, sum: &[u8]) -> bool
        ensures { IsTrue result ↔ IsMet self.now sum.now };
}

/// Adds to `sum` a subset of the candidates, named by their indices among `boxes`, with which it meets the
/// target, and notes in `chosen` which they are; nothing is added where there is none. All 2^n subsets of n
/// candidates are tried in the order of the reflected Gray code: one box is added or taken away between two
/// of them.
pub fn find_subset<B: AsSlice<u8>, T: Target>(
    target: &T,
    sum: &mut [u8],
    boxes: &[B],
    candidates: &[usize],
    chosen: &mut [bool],
) -> bool
    requires candidates { All (λ i. i < length boxes.now) candidates.now }
    requires widths { All (λ box. length (B.items box) ≡ length sum.old) boxes.now }
    requires room { length candidates.now ≤ length chosen.old }
    ensures found { IsTrue result → T.IsMet target.now sum.new }
    ensures added { IsTrue result
        → sum.new ≡ added sum.old
        (chosen_below (length candidates.now) (boxes_at (map B.items boxes.now) candidates.now) chosen.new) }
    ensures none { result ≡ false
        → HasNone (T.IsMet target.now) sum.old (boxes_at (map B.items boxes.now) candidates.now) }
    ensures kept { result ≡ false → sum.new ≡ sum.old }
    ensures length { length sum.new ≡ length sum.old }
    ensures chosen { length chosen.new ≡ length chosen.old }
{
    clear(chosen);
    let is_found = search(target, sum, boxes, candidates, chosen, candidates.len());
    if !is_found {
        take_away(sum, boxes, candidates, chosen, candidates.len());
    }
    is_found
}

// Chooses none.
fn clear(chosen: &mut [bool])
    ensures none { (k : ℕ) → slice_index_or chosen.new k false ≡ false }
    ensures length { length chosen.new ≡ length chosen.old }
{
    for is_chosen in chosen.iter_mut() {
        *is_chosen = false;
    }
}

// Tries each choice of the first `count` candidates. Between any two choices one box is added or taken away.
fn search<B: AsSlice<u8>, T: Target>(
    target: &T,
    sum: &mut [u8],
    boxes: &[B],
    candidates: &[usize],
    chosen: &mut [bool],
    count: usize,
) -> bool
    requires candidates { All (λ i. i < length boxes.now) candidates.now }
    requires widths { All (λ box. length (B.items box) ≡ length sum.old) boxes.now }
    requires count { count ≤ length candidates.now }
    requires room { length candidates.now ≤ length chosen.old }
    ensures found { IsTrue result → T.IsMet target.now sum.new }
    ensures none { result ≡ false
        → (choice : List Bool)
        → T.IsMet target.now
        (added (added sum.old (chosen_below count (boxes_at (map B.items boxes.now) candidates.now)
        chosen.old))
        (chosen_below count (boxes_at (map B.items boxes.now) candidates.now) choice)) → ⊥ }
    ensures same { added sum.new (chosen_below count (boxes_at (map B.items boxes.now) candidates.now) chosen.new)
        ≡ added sum.old (chosen_below count (boxes_at (map B.items boxes.now) candidates.now) chosen.old) }
    ensures above { (k : ℕ) → count ≤ k
        → slice_index_or chosen.new k false ≡ slice_index_or chosen.old k false }
    ensures length { length sum.new ≡ length sum.old }
    ensures chosen { length chosen.new ≡ length chosen.old }
{
    if count == 0 {
        return target.is_met(sum);
    }
    let last = count - 1;
    if search(target, sum, boxes, candidates, chosen, last) {
        return true;
    }
    xor_into(sum, boxes[candidates[last]].as_slice());
    chosen[last] = !chosen[last];
    search(target, sum, boxes, candidates, chosen, last)
}

// Takes away what is chosen of the first `count` candidates.
fn take_away<B: AsSlice<u8>>(
    sum: &mut [u8],
    boxes: &[B],
    candidates: &[usize],
    chosen: &[bool],
    count: usize,
)
    requires candidates { All (λ i. i < length boxes.now) candidates.now }
    requires widths { All (λ box. length (B.items box) ≡ length sum.old) boxes.now }
    requires count { count ≤ length candidates.now }
    requires room { length candidates.now ≤ length chosen.now }
    ensures sum { sum.new
        ≡ added sum.old (chosen_below count (boxes_at (map B.items boxes.now) candidates.now) chosen.now) }
    ensures length { length sum.new ≡ length sum.old }
{
    if count == 0 {
        return;
    }
    let last = count - 1;
    if chosen[last] {
        xor_into(sum, boxes[candidates[last]].as_slice());
    }
    take_away(sum, boxes, candidates, chosen, last);
}
