//! What an evaluation costs, at a few lists of addresses.
ghost use Rattle.std.specs.Prelude.{◌≡◌, ◌^◌, ℕ, [], ◌∷◌};
ghost use Rattle.dpf_rules.specs.Evaluation.{prefix_count};

/// How many steps `Frontier::run` takes at no address, at one, at two that part at the last bit, and at two
/// that part at the first.
pub fn worked_counts()
    ensures none { prefix_count [] ≡ 0 }
    ensures one { (address : ℕ) → prefix_count (address ∷ []) ≡ 128 }
    ensures neighbours { prefix_count
        (0xffffffffffffffffffffffffffffffff ∷ 0xfffffffffffffffffffffffffffffffe ∷ []) ≡ 128 }
    ensures far { prefix_count (0 ∷ 2 ^ 127 ∷ []) ≡ 255 }
{}
