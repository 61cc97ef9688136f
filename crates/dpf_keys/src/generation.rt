//! The public part of a point function from both servers' honest expansions, and the theorem of the point function.
ghost use Rattle.std.specs.Prelude.{◌≡◌, ◌≢◌, ℕ, ◌+◌, ◌%◌, ◌^◌, ◌<◌, ◌++◌, length, replicate};
ghost use Rattle.express_words.specs.Bytes.{xor_bytes};
ghost use Rattle.dpf_rules.specs.Bytes.{bytes_of, words_bytes, bits_number};
ghost use Rattle.dpf_rules.specs.Expansion.{block};
ghost use Rattle.dpf_rules.specs.Walk.{leaf_of, write_bytes, state_at};
ghost use Rattle.dpf_rules.specs.Keys.{path_at, path_word, path_right, keys, honest, honest_keys};
ghost use Rattle.express_words.specs.Limits.{IsWidth, levels_len};

use crate::levels::{level_right, level_word, side_at, step, with_bit};
use chacha_expand::{block_into, children};
use dpf_rules::{write_number, xor_into};
use express_words::limits::LEVELS_LEN;

// Writes the words and right bits of the path to a target, and gives both servers' states at its end.
fn levels_into(target: u128, root0: u128, root1: u128, out: &mut [u8]) -> (u128, u128)
    requires { length out.old ≡ levels_len }
    ensures ends { result ≡ path_at target root0 root1 128 }
    ensures bytes { out.new ≡ words_bytes (path_word target root0 root1) 128
        ++ bytes_of 16 (bits_number (path_right target root0 root1) 128) }
{
    let mut state0 = with_bit(root0, 0);
    let mut state1 = with_bit(root1, 1);
    let mut rights = 0u128;
    for level in 0..128u8 {
        let side = side_at(target, level);
        let pair0 = children(state0);
        let pair1 = children(state1);
        let word = level_word(pair0, pair1, side);
        let right = level_right(pair0, pair1, side);
        let at = 16 * level as usize;
        write_number(&mut out[at..at + 16], word);
        rights += right << level;
        state0 = step(word, right, side, state0, pair0);
        state1 = step(word, right, side, state1, pair1);
    }
    write_number(&mut out[2048..LEVELS_LEN], rights);
    (state0, state1)
}

// Writes the last correction: the sum of both last blocks and the message.
fn last_into(end0: u128, end1: u128, message: &[u8], out: &mut [u8])
    requires room { length out.old ≡ length message.now }
    requires width { IsWidth (length message.now) }
    ensures { out.new ≡ xor_bytes (xor_bytes (block (length message.now) end0) (block (length message.now) end1)) message.now }
{
    let mut bytes = [0u8; 4096];
    let other = &mut bytes[..message.len()];
    block_into(end1, other);
    block_into(end0, out);
    xor_into(out, other);
    xor_into(out, message);
}

// Writes the keys of honest expansions.
fn keys_into(target: u128, message: &[u8], root0: u128, root1: u128, out: &mut [u8])
    requires width { IsWidth (length message.now) }
    requires room { length out.old ≡ levels_len + length message.now }
    ensures { out.new ≡ honest_keys target message.now root0 root1 }
{
    let (end0, end1) = levels_into(target, root0, root1, &mut out[..LEVELS_LEN]);
    last_into(end0, end1, message, &mut out[LEVELS_LEN..]);
}

/// Writes the public part of the point function that is the message at the target and zeros elsewhere: 128 words of 16
/// bytes and 16 bytes of right bits, each with the lowest byte first, then as many bytes as the message has. Bit i of
/// the right bits, counted from the lowest, is level i's. Bit 0 of the roots is not read.
pub fn generate(target: u128, message: &[u8], root0: u128, root1: u128, out: &mut [u8])
    requires width { IsWidth (length message.now) }
    requires room { length out.old ≡ levels_len + length message.now }
    // The keys of honest expansions ..
    ensures keys { out.new ≡ honest_keys target message.now root0 root1 }
    // .. which are those at the states of both servers' walks to the target.
    ensures honest { out.new ≡ keys target message.now
        (honest (state_at out.new 0 root0 target) (length message.now))
        (honest (state_at out.new 1 root1 target) (length message.now)) }

    // The leaves are equal everywhere but at the target, where their control bits differ.
    ensures leaves_differ { leaf_of out.new 0 root0 target % 2 + leaf_of out.new 1 root1 target % 2 ≡ 1 }
    ensures leaves_equal { (address : ℕ) → address < 2 ^ 128 → address ≢ target
        → leaf_of out.new 0 root0 address ≡ leaf_of out.new 1 root1 address }

    // The write bytes add up to the message at the target, and to zeros elsewhere.
    ensures sum_at_target { xor_bytes (write_bytes out.new 0 root0 target) (write_bytes out.new 1 root1 target)
        ≡ message.now }
    ensures sum_elsewhere { (address : ℕ) → address < 2 ^ 128 → address ≢ target
        → xor_bytes (write_bytes out.new 0 root0 address) (write_bytes out.new 1 root1 address)
        ≡ replicate (length message.now) 0 }
{
    keys_into(target, message, root0, root1, out);
}
