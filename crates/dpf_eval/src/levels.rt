//! One level of the tree, for all entries at once.
//!
//! An entry is an address on its way down, with the state that its walk has reached. Entries stand by rising
//! address, so those that share a prefix are neighbours: a group, which stands at one node of the tree.
ghost use Rattle.std.specs.Prelude.{◌≡◌, ℕ, ◌+◌, ◌^◌, ◌<◌, ◌≤◌, nat_le, if◌then◌else◌, length, slice_index};
ghost use Rattle.dpf_rules.specs.Expansion.{with_bit};
ghost use Rattle.dpf_rules.specs.Keys.{raw_pair};
ghost use Rattle.dpf_rules.specs.Walk.{word_of, right_of, side_at};
ghost use Rattle.dpf_eval.specs.Groups.{groups_of, group_at, stepped, AreJoined, AreStepped, HaveChildren};

use dpf_keys::PublicPart;
use dpf_keys::levels::{side_at, with_bit};

/// Puts the first `count` entries at one state.
pub(crate) fn start(states: &mut [u128], count: usize, state: u128)
    requires { count ≤ length states.old }
    ensures { (k : ℕ) → k < count → slice_index states.new k ≡ state }
{
    for k in 0..count {
        states[k] = state;
    }
}

/// Puts the state of each group's first entry into `nodes`, and gives the number of groups.
pub(crate) fn gather(states: &[u128], splits: &[u8], level: u8, nodes: &mut [u128]) -> usize
    requires states { length splits.now ≤ length states.now }
    requires nodes { length splits.now ≤ length nodes.old }
    requires first { slice_index splits.now 0 ≤ level }
    requires grouped { AreJoined level splits.now states.now }
    ensures count { result ≡ groups_of splits.now level (length splits.now) }
    ensures within { result ≤ length splits.now }
    ensures nodes { (k : ℕ) → k < length splits.now
        → slice_index nodes.new (group_at splits.now level k) ≡ slice_index states.now k }
{
    let mut groups = 0usize;
    for k in 0..splits.len() {
        if splits[k] <= level {
            nodes[groups] = states[k];
            groups += 1;
        }
    }
    groups
}

/// What a level adds to the raw children of a node whose control bit is 1.
#[derive(Drop)]
pub(crate) struct Correction {
    pub(crate) left: u128,
    pub(crate) right: u128,
}

/// The correction of a level: its word on the left, the word with the right bit on the right.
pub(crate) fn correction_at(part: &PublicPart, level: u8) -> Correction
    requires { level < 128 }
    ensures { result ≡ record {
      left = word_of part.now level;
      right = with_bit (word_of part.now level) (right_of part.now level);
    } }
{
    let word = part.word(level);
    Correction {
        left: word,
        right: with_bit(word, u128::from(part.right(level))),
    }
}

/// The number of groups, one entry on.
fn groups_after(groups: usize, split: u8, level: u8) -> usize
    requires { groups < 2 ^ 32 }
    ensures { result ≡ groups + (if nat_le split level then 1 else 0) }
{
    if split <= level { groups + 1 } else { groups }
}

/// The next state of an entry, from the raw children of its state.
fn step(address: u128, level: u8, pair: (u128, u128), correction: &Correction, state: u128) -> u128
    requires level { level < 128 }
    requires pair { pair ≡ raw_pair state }
    ensures { result ≡ stepped correction.now.left correction.now.right (side_at address level) state }
{
    let (raw, added) = if side_at(address, level) == 0 {
        (pair.0, correction.left)
    } else {
        (pair.1, correction.right)
    };
    if state % 2 == 1 { raw ^ added } else { raw }
}

/// Takes each entry to the child of its group's node on the side of its address.
pub(crate) fn descend(
    addresses: &[u128],
    splits: &[u8],
    level: u8,
    correction: &Correction,
    pairs: &[(u128, u128)],
    states: &mut [u128],
)
    requires level { level < 128 }
    requires size { length addresses.now < 2 ^ 32 }
    requires splits { length splits.now ≡ length addresses.now }
    requires room { length addresses.now ≤ length pairs.now }
    requires states { length addresses.now ≤ length states.old }
    requires first { slice_index splits.now 0 ≤ level }
    requires pairs { HaveChildren level splits.now (length addresses.now) pairs.now states.old }
    ensures { AreStepped correction.now level addresses.now states.old states.new }
{
    let mut groups = 0usize;
    for k in 0..addresses.len() {
        groups = groups_after(groups, splits[k], level);
        states[k] = step(
            addresses[k],
            level,
            pairs[groups - 1],
            correction,
            states[k],
        );
    }
}
