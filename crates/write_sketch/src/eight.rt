//! Challenges, eight at a time.
ghost use Rattle.std.specs.Prelude.{◌≡◌, ℕ, ◌-◌, ◌%◌, ◌<◌, length, slice_index, slice_index_or};
ghost use Rattle.chacha_expand.specs.Challenges.{challenge_at};
ghost use Rattle.write_sketch.specs.Eight.{HasChallenges};

use chacha_expand::challenge8;

// The challenges at the first eight addresses, or at all if there are fewer.
fn challenges_from(ckey: &[u8; 32], addresses: &[u128]) -> [(u128, u128); 8]
    ensures { (j : ℕ) → j < 8 → j < length addresses.now
        → slice_index_or result j (0, 0) ≡ challenge_at ckey.now (slice_index addresses.now j) }
{
    let mut eight = [0u128; 8];
    let count = addresses.len().min(8);
    eight[..count].copy_from_slice(&addresses[..count]);
    challenge8(ckey, &eight)
}

/// Makes the challenges at the eight places around place `i` anew, where that is the first of them.
pub fn refresh(ckey: &[u8; 32], addresses: &[u128], i: usize, eight: &mut [(u128, u128); 8])
    requires there { i < length addresses.now }
    requires held { 0 < i % 8 → HasChallenges ckey.now addresses.now (i - i % 8) eight.old }
    ensures held { HasChallenges ckey.now addresses.now (i - i % 8) eight.new }
{
    if i % 8 == 0 {
        *eight = challenges_from(ckey, &addresses[i..]);
    }
}
