//! Where neighbours part on the way down.
ghost use Rattle.std.specs.Prelude.{◌≡◌, ◌≢◌, ℕ, ◌<◌, ◌≤◌, length, vec_capacity};
ghost use Rattle.dpf_rules.specs.Evaluation.{prefix};
ghost use Rattle.dpf_eval.specs.Groups.{IsSplit};

/// The first level at which the prefixes of two addresses differ: one more than the bits that they share.
fn split(before: u128, address: u128) -> u8
    ensures joined { (i : ℕ) → i < result → i ≤ 128 → prefix i before ≡ prefix i address }
    ensures apart { (i : ℕ) → result ≤ i → i ≤ 128 → prefix i before ≢ prefix i address }
{
    (before ^ address).leading_zeros() as u8 + 1
}

/// Lists the level at which each address parts from the one before it; the first does so at the root.
pub(crate) fn split_into(addresses: &[u128], splits: &mut Vec<u8>)
    requires { length addresses.now ≤ vec_capacity splits.old }
    ensures length { length splits.new.items ≡ length addresses.now }
    ensures split { IsSplit addresses.now splits.new.items }
    ensures room { vec_capacity splits.new ≡ vec_capacity splits.old }
{
    splits.clear();
    for k in 0..addresses.len() {
        let level = if k == 0 {
            0
        } else {
            split(addresses[k - 1], addresses[k])
        };
        splits.push_reserved(level);
    }
}
