//! That choices, aims and games have the form that the laws speak of, which a proof learns where they are
//! read.
ghost use Rattle.std.specs.Prelude.{◌≡◌, ◌≢◌, ◌^◌, ◌<◌, length, All, AllPairs, Contains};
ghost use Rattle.write_hiding.specs.Choices.{IsChoice, IsAim, IsGame, plain_choice, plain_aim, plain_game};

use crate::choice::{Aim, Game, IdealChoice};
use audit_rules::{read_bytes, read_words};

// Both members of a pair are numbers of the field.
fn read_pair(_left: u128, _right: u128)
    ensures left { _left < 2 ^ 128 }
    ensures right { _right < 2 ^ 128 }
{}

// Both members of each pair are numbers of the field.
fn read_pairs(pairs: &[(u128, u128)])
    ensures in_range { All (λ p. (p.0 < 2 ^ 128) × (p.1 < 2 ^ 128)) pairs.now }
{
    for i in 0..pairs.len() {
        let (left, right) = pairs[i];
        read_pair(left, right);
    }
}

/// A choice with 128 levels has the form of one.
pub fn read_choice(choice: &IdealChoice)
    requires levels { length choice.now.levels ≡ 128 }
    ensures form { IsChoice (length choice.now.last_block) (plain_choice choice.now) }
{
    let _own_root = choice.own_root;
    let _other_root = choice.other_root;
    read_pairs(choice.levels.as_slice());
    read_bytes(choice.last_block.as_slice());
    read_words(&choice.words);
}

/// An aim at one of the addresses has the form of one.
pub fn read_aim(aim: &Aim, game: &Game)
    requires registered { Contains game.now.addresses.now aim.now.target }
    ensures form { IsAim (length aim.now.message.now) (plain_game game.now) (plain_aim aim.now) }
{
    read_bytes(aim.message);
}

/// A game with distinct addresses has the form of one.
pub fn read_game(game: &Game)
    requires distinct { AllPairs (λ p q. p ≢ q) game.now.addresses.now }
    ensures form { IsGame (plain_game game.now) }
{
    let _sigma = game.sigma;
}
