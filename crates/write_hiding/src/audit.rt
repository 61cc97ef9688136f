//! What both servers audit of a choice: the sums of the viewer's leaves and of the other server's, and the
//! difference of both leaves at the target.
ghost use Rattle.std.specs.Prelude.{◌≡◌, ◌-◌, ◌≤◌, ◌==◌, if◌then◌else◌, length, map, IfOk};
ghost use Rattle.std.specs.List.{zip};
ghost use Rattle.dpf_rules.specs.Walk.{leaf_of};
ghost use Rattle.dpf_rules.specs.Ideal.{given_at};
ghost use Rattle.write_hiding.specs.Choices.{plain_choice, plain_aim, plain_game};
ghost use Rattle.write_hiding.specs.Views.{public_part, own_sums, other_sums, difference_of};

use crate::choice::{Aim, Game, IdealChoice};
use dpf_keys::levels::{corrected, on_side, side_at, with_bit};
use dpf_keys::{PublicPart, walk};
use express_words::NoMemory;
use std::alloc::Global;
use write_sketch::{Sums, sums};

/// What both servers audit of a choice.
#[derive(Clone, Copy, Debug, PartialEq, Eq)]
pub struct Audited {
    /// The sums of the viewer's leaves.
    pub own: Sums,
    /// The sums of the other server's leaves.
    pub other: Sums,
    /// The difference of both leaves at the target, which is their sum.
    pub difference: u128,
}

// The end of the other server's path to the target.
fn other_end(part: &PublicPart, choice: &IdealChoice, target: u128) -> u128
    requires viewer { choice.now.viewer ≤ 1 }
    requires levels { length choice.now.levels ≡ 128 }
    ensures { let c = plain_choice choice.now in
        result ≡ given_at part.now target (1 - choice.now.viewer) c.other_root c.other 128 }
{
    let mut state = with_bit(choice.other_root, u128::from(1 - choice.viewer));
    for level in 0..128u8 {
        let side = side_at(target, level);
        let right = u128::from(part.right(level));
        let raw = on_side(choice.levels.as_slice()[level as usize], side);
        state = corrected(part.word(level), right, side, raw, state);
    }
    state
}

// The viewer's leaves at addresses.
fn own_leaves(
    alloc: Global,
    part: &PublicPart,
    choice: &IdealChoice,
    addresses: &[u128],
) -> Result<Vec<u128>, NoMemory>
    requires viewer { choice.now.viewer ≤ 1 }
    ensures leaves { IfOk result (λ leaves.
        leaves.items ≡ map (leaf_of part.now choice.now.viewer choice.now.own_root) addresses.now) }
{
    let leaves = addresses
        .iter()
        .map(|address| walk(part, choice.viewer, choice.own_root, *address))
        .collect(alloc)?;
    Ok(leaves)
}

// The viewer's leaves, with the end of the other server's path at the target.
fn other_leaves(
    alloc: Global,
    own: &[u128],
    addresses: &[u128],
    target: u128,
    end: u128,
) -> Result<Vec<u128>, NoMemory>
    ensures leaves { IfOk result (λ leaves.
        leaves.items ≡ map (λ p. if p.0 == target then end else p.1) (zip addresses.now own.now)) }
{
    let leaves = addresses
        .iter()
        .zip(own.iter())
        .map(|(address, leaf)| if *address == target { end } else { *leaf })
        .collect(alloc)?;
    Ok(leaves)
}

/// What both servers audit of a choice under its public part.
pub fn audit(
    alloc: Global,
    part: &PublicPart,
    choice: &IdealChoice,
    aim: &Aim,
    game: &Game,
) -> Result<Audited, NoMemory>
    requires viewer { choice.now.viewer ≤ 1 }
    requires levels { length choice.now.levels ≡ 128 }
    requires part { part.now ≡ public_part choice.now.viewer (plain_choice choice.now) (plain_aim aim.now) }
    ensures own { IfOk result (λ audited. audited.own
        ≡ own_sums choice.now.viewer (plain_choice choice.now) (plain_aim aim.now) (plain_game game.now)) }
    ensures other { IfOk result (λ audited. audited.other
        ≡ other_sums choice.now.viewer (plain_choice choice.now) (plain_aim aim.now) (plain_game game.now)) }
    ensures difference { IfOk result (λ audited. audited.difference
        ≡ difference_of choice.now.viewer (plain_choice choice.now) (plain_aim aim.now)) }
{
    let end = other_end(part, choice, aim.target);
    let own = own_leaves(alloc, part, choice, game.addresses)?;
    let other = other_leaves(alloc, &own, game.addresses, aim.target, end)?;
    Ok(Audited {
        own: sums(&own, game.addresses, &game.ckey),
        other: sums(&other, game.addresses, &game.ckey),
        difference: walk(part, choice.viewer, choice.own_root, aim.target) ^ end,
    })
}
