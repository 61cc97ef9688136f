//! The other server's expansions, moved to another target and message.
ghost use Rattle.std.specs.Prelude.{◌≡◌, ◌+◌, ◌<◌, ◌≤◌, length, IfOk};
ghost use Rattle.express_words.specs.Bytes.{xor_bytes};
ghost use Rattle.express_words.specs.Limits.{levels_len};
ghost use Rattle.dpf_rules.specs.Expansion.{block};
ghost use Rattle.dpf_rules.specs.Walk.{last_of, state_at};
ghost use Rattle.write_hiding.specs.Choices.{plain_choice, plain_aim};
ghost use Rattle.write_hiding.specs.Views.{public_part};
ghost use Rattle.write_hiding.specs.Moved.{moved_pair, moved_pairs, walked};

use crate::choice::{Aim, IdealChoice};
use crate::part::last_into;
use chacha_expand::children;
use dpf_keys::PublicPart;
use dpf_keys::levels::{on_side, side_at, step, with_bit};
use express_words::{List, NoMemory};
use std::alloc::Global;

// The pair of the other server that makes a level's word and right bit with the viewer's raw pair. The seed
// that was kept on the side `from` is kept on the side `to`.
fn moved_pair(
    word: u128,
    right: u128,
    raw: (u128, u128),
    pair: (u128, u128),
    from: u128,
    to: u128,
) -> (u128, u128)
    requires right { right < 2 }
    requires to { to < 2 }
    ensures { result ≡ moved_pair word right raw pair from to }
{
    let kept = on_side(pair, from);
    let lost = word ^ on_side(raw, 1 - to);
    let left_bit = (word % 2 + raw.0 % 2 + to + 1) % 2;
    let right_bit = (right + raw.1 % 2 + to) % 2;
    if to == 0 {
        (with_bit(kept, left_bit), with_bit(lost, right_bit))
    } else {
        (with_bit(lost, left_bit), with_bit(kept, right_bit))
    }
}

// The other server's pairs that make the public part along the viewer's walk to another target, and that
// walk's end.
fn moved_levels(
    alloc: Global,
    part: &PublicPart,
    choice: &IdealChoice,
    from: u128,
    to: u128,
) -> Result<(Vec<(u128, u128)>, u128), NoMemory>
    requires viewer { choice.now.viewer ≤ 1 }
    requires levels { length choice.now.levels ≡ 128 }
    ensures pairs { let c = plain_choice choice.now in
        IfOk result (λ r.
        r.0.items ≡ moved_pairs part.now choice.now.viewer c.own_root c.other from to) }
    ensures end { IfOk result (λ r. r.1 ≡ state_at part.now choice.now.viewer choice.now.own_root to 128) }
{
    let mut pairs = Vec::with_capacity(alloc, 128)?;
    let mut state = with_bit(choice.own_root, u128::from(choice.viewer));
    for level in 0..128u8 {
        let raw = children(state);
        let word = part.word(level);
        let right = u128::from(part.right(level));
        let side = side_at(to, level);
        let pair = choice.levels.as_slice()[level as usize];
        pairs.push(moved_pair(word, right, raw, pair, side_at(from, level), side))?;
        state = step(word, right, side, state, raw);
    }
    Ok((pairs, state))
}

// The other server's last block that makes the last correction at the end of the viewer's walk.
fn moved_block(
    alloc: Global,
    part: &PublicPart,
    end: u128,
    message: &[u8],
) -> Result<Vec<u8>, NoMemory>
    requires { length part.now ≡ levels_len + length message.now }
    ensures block { IfOk result (λ bytes. bytes.items
        ≡ xor_bytes (xor_bytes (block (length message.now) end) (last_of part.now)) message.now) }
{
    let mut bytes = vec![in alloc; 0u8; message.len()]?;
    last_into(end, part.last(), message, &mut bytes);
    Ok(bytes)
}

/// The choice with its expansions moved, and its words as they were.
pub fn walked(
    alloc: Global,
    part: &PublicPart,
    choice: &IdealChoice,
    from: &Aim,
    to: &Aim,
) -> Result<IdealChoice, NoMemory>
    requires viewer { choice.now.viewer ≤ 1 }
    requires levels { length choice.now.levels ≡ 128 }
    requires part { part.now ≡ public_part choice.now.viewer (plain_choice choice.now) (plain_aim from.now) }
    requires width { length part.now ≡ levels_len + length to.now.message.now }
    ensures viewer { IfOk result (λ w. w.viewer ≡ choice.now.viewer) }
    ensures walked { IfOk result (λ w. plain_choice w
        ≡ walked choice.now.viewer (plain_choice choice.now) (plain_aim from.now) (plain_aim to.now)) }
    ensures levels { IfOk result (λ w. length w.levels ≡ 128) }
{
    let (levels, end) = moved_levels(alloc, part, choice, from.target, to.target)?;
    let last_block = moved_block(alloc, part, end, to.message)?;
    Ok(IdealChoice {
        viewer: choice.viewer,
        own_root: choice.own_root,
        other_root: choice.other_root,
        levels: List::from_vec(levels),
        last_block: List::from_vec(last_block),
        words: choice.words,
    })
}
