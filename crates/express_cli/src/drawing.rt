//! The choice of a write that is drawn from a seed.
ghost use Rattle.std.specs.Prelude.{◌≡◌, ◌≤◌, length, map, IfOk};
ghost use Rattle.std.specs.List.{range_with_len};
ghost use Rattle.write_hiding.specs.Choices.{plain_choice};
ghost use Rattle.express_cli.specs.Cloaks.{drawn_words, drawn_pair, drawn_block, drawn_choice};

use chacha_expand::{choices, draw32};
use dpf_rules::read_number;
use express_words::{List, NoMemory};
use std::alloc::Global;
use write_hiding::IdealChoice;

// The sixteen words of a write.
fn drawn_words(seed: &[u8; 32]) -> [u128; 16]
    ensures { result ≡ drawn_words seed.now }
{
    choices(seed, 0)
}

// The two words of a draw.
#[tactic(auto, unfolding(crate::specs::Cloaks::drawn_pair))]
fn drawn_pair(seed: &[u8; 32], index: u64) -> (u128, u128)
    ensures { result ≡ drawn_pair seed.now index }
{
    let draw = draw32(seed, index);
    (read_number(&draw[..16]), read_number(&draw[16..32]))
}

// The first bytes of the draws behind those of the levels.
#[tactic(auto, using(std::proofs::lemmas::Grind::common_steps, crate::proofs::Steps::draws_next, crate::proofs::Steps::draws_none), unfolding(crate::specs::Cloaks::drawn_block))]
fn drawn_block(alloc: Global, seed: &[u8; 32], width: u32) -> Result<Vec<u8>, NoMemory>
    requires { width ≤ 4096 }
    ensures block { IfOk result (λ block. block.items ≡ drawn_block seed.now width) }
    ensures length { IfOk result (λ block. length block.items ≡ width) }
{
    let mut block = Vec::new(alloc);
    for index in 129..257u64 {
        let draw = draw32(seed, index);
        block.extend_from_slice(&draw)?;
    }
    block.truncate(width as usize);
    Ok(block)
}

// A pair for each level, from draw 1 on.
fn drawn_levels(alloc: Global, seed: &[u8; 32]) -> Result<Vec<(u128, u128)>, NoMemory>
    ensures { IfOk result (λ pairs. pairs.items ≡ map (drawn_pair seed.now) (range_with_len 1 128)) }
{
    let pairs = (1..129u64)
        .map(|index| drawn_pair(seed, index))
        .collect(alloc)?;
    Ok(pairs)
}

/// The choice that is drawn from a seed, for messages of a width.
#[tactic(auto, unfolding(crate::specs::Cloaks::drawn_choice))]
pub fn drawn_choice(
    alloc: Global,
    viewer: u8,
    seed: &[u8; 32],
    width: u32,
) -> Result<IdealChoice, NoMemory>
    requires { width ≤ 4096 }
    ensures viewer { IfOk result (λ choice. choice.viewer ≡ viewer) }
    ensures choice { IfOk result (λ choice. plain_choice choice ≡ drawn_choice seed.now width) }
    ensures levels { IfOk result (λ choice. length choice.levels ≡ 128) }
    ensures block { IfOk result (λ choice. length choice.last_block ≡ width) }
{
    let drawn = drawn_words(seed);
    let levels = drawn_levels(alloc, seed)?;
    let block = drawn_block(alloc, seed, width)?;
    let mut words = [0; 14];
    words.copy_from_slice(&drawn[2..]);
    Ok(IdealChoice {
        viewer,
        own_root: drawn[0],
        other_root: drawn[1],
        levels: List::from_vec(levels),
        last_block: List::from_vec(block),
        words,
    })
}
