//! The public part of a choice.
ghost use Rattle.std.specs.Prelude.{◌≡◌, ◌+◌, ◌≤◌, length, IfOk};
ghost use Rattle.express_words.specs.Bytes.{xor_bytes};
ghost use Rattle.dpf_rules.specs.Expansion.{block};
ghost use Rattle.dpf_rules.specs.Ideal.{own_at};
ghost use Rattle.express_words.specs.Limits.{IsWidth, levels_len};
ghost use Rattle.write_hiding.specs.Choices.{plain_choice, plain_aim};
ghost use Rattle.write_hiding.specs.Levels.{levels_bytes};
ghost use Rattle.write_hiding.specs.Views.{public_part};

use crate::choice::{Aim, IdealChoice};
use chacha_expand::{block_into, children};
use dpf_keys::levels::{level_right, level_word, side_at, step, with_bit};
use dpf_rules::{write_number, xor_into};
use express_words::NoMemory;
use express_words::limits::LEVELS_LEN;
use std::alloc::Global;

// Writes the words and the right bits of all levels, and returns the end of the viewer's path.
fn levels_into(choice: &IdealChoice, target: u128, out: &mut [u8]) -> u128
    requires room { length out.old ≡ levels_len }
    requires levels { length choice.now.levels ≡ 128 }
    requires viewer { choice.now.viewer ≤ 1 }
    ensures end { let c = plain_choice choice.now in
        result ≡ own_at target choice.now.viewer c.own_root c.other 128 }
    ensures bytes { let c = plain_choice choice.now in
        out.new ≡ levels_bytes target choice.now.viewer c.own_root c.other }
{
    let mut state = with_bit(choice.own_root, u128::from(choice.viewer));
    let mut rights = 0u128;
    for level in 0..128u8 {
        let side = side_at(target, level);
        let own = children(state);
        let other = choice.levels.as_slice()[level as usize];
        let word = level_word(own, other, side);
        let right = level_right(own, other, side);
        let at = 16 * level as usize;
        write_number(&mut out[at..at + 16], word);
        rights += right << level;
        state = step(word, right, side, state, own);
    }
    write_number(&mut out[2048..LEVELS_LEN], rights);
    state
}

/// Writes the sum of the viewer's last block, other bytes and a message.
pub fn last_into(end: u128, other: &[u8], message: &[u8], out: &mut [u8])
    requires width { length message.now ≤ 4096 }
    requires other { length other.now ≡ length message.now }
    requires room { length out.old ≡ length message.now }
    ensures { out.new ≡ xor_bytes (xor_bytes (block (length message.now) end) other.now) message.now }
{
    block_into(end, out);
    xor_into(out, other);
    xor_into(out, message);
}

// Writes the public part.
fn part_into(choice: &IdealChoice, aim: &Aim, out: &mut [u8])
    requires viewer { choice.now.viewer ≤ 1 }
    requires levels { length choice.now.levels ≡ 128 }
    requires block { length choice.now.last_block ≡ length aim.now.message.now }
    requires width { IsWidth (length aim.now.message.now) }
    requires room { length out.old ≡ levels_len + length aim.now.message.now }
    ensures { out.new ≡ public_part choice.now.viewer (plain_choice choice.now) (plain_aim aim.now) }
{
    let end = levels_into(choice, aim.target, &mut out[..LEVELS_LEN]);
    last_into(
        end,
        choice.last_block.as_slice(),
        aim.message,
        &mut out[LEVELS_LEN..],
    );
}

/// The bytes of the public part.
pub fn public_part(alloc: Global, choice: &IdealChoice, aim: &Aim) -> Result<Vec<u8>, NoMemory>
    requires viewer { choice.now.viewer ≤ 1 }
    requires levels { length choice.now.levels ≡ 128 }
    requires block { length choice.now.last_block ≡ length aim.now.message.now }
    requires width { IsWidth (length aim.now.message.now) }
    ensures part { IfOk result (λ part.
        part.items ≡ public_part choice.now.viewer (plain_choice choice.now) (plain_aim aim.now)) }
    ensures length { IfOk result (λ part. length part.items ≡ levels_len + length aim.now.message.now) }
{
    let mut part = vec![in alloc; 0u8; LEVELS_LEN + aim.message.len()]?;
    part_into(choice, aim, &mut part);
    Ok(part)
}
