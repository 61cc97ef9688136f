//! The choice by which another write gives the viewer the same view.
ghost use Rattle.std.specs.Prelude.{◌≡◌, ◌≢◌, ◌≤◌, length, AllPairs, Contains, IfOk};
ghost use Rattle.express_words.specs.Limits.{IsWidth};
ghost use Rattle.write_hiding.specs.Choices.{IsChoice, plain_choice};
ghost use Rattle.write_hiding.specs.Views.{view_of};
ghost use Rattle.write_hiding.specs.Malicious.{SameMaliciousViews};
ghost use Rattle.write_hiding.specs.Moved.{moved_of};

use crate::audit::audit;
use crate::choice::{Aim, Game, IdealChoice};
use crate::expansions::walked;
use crate::ranges::{read_aim, read_choice, read_game};
use crate::views::view;
use crate::words::moved_words;
use dpf_keys::PublicPart;
use express_words::NoMemory;
use std::alloc::Global;

/// The choice that gives the viewer, of the write to `to`, the view that `choice` gives it of the write to
/// `from`, at any point but 1 and 2 also where the viewer opens to the other server whatever it likes. The
/// opposite move gives `choice` back. `NoMemory` comes where there is none for that view, for the moved pairs
/// and block, or for leaves.
pub fn moved(
    alloc: Global,
    choice: &IdealChoice,
    from: &Aim,
    to: &Aim,
    game: &Game,
) -> Result<IdealChoice, NoMemory>
    requires viewer { choice.now.viewer ≤ 1 }
    requires levels { length choice.now.levels ≡ 128 }
    requires block { length choice.now.last_block ≡ length from.now.message.now }
    requires message { length to.now.message.now ≡ length from.now.message.now }
    requires width { IsWidth (length from.now.message.now) }
    requires distinct { AllPairs (λ p q. p ≢ q) game.now.addresses.now }
    requires from_registered { Contains game.now.addresses.now from.now.target }
    requires to_registered { Contains game.now.addresses.now to.now.target }
    ensures viewer { IfOk result (λ gone. gone.viewer ≡ choice.now.viewer) }
    ensures moved { let c = choice.now in
        IfOk result (λ gone. plain_choice gone ≡ moved_of c.viewer c from.now to.now game.now) }
    ensures choice { IfOk result (λ gone. IsChoice (length from.now.message.now) (plain_choice gone)) }
    // The view stays, ..
    ensures same_view { let c = choice.now in
        IfOk result (λ gone.
        view_of c.viewer gone to.now game.now ≡ view_of c.viewer c from.now game.now) }
    // .. also that of a malicious viewer, whatever it opens, at any point but 1 and 2, ..
    ensures same_malicious_view { let c = choice.now in
        IfOk result (λ gone. SameMaliciousViews c.viewer game.now gone to.now c from.now) }
    // .. and the opposite move gives the choice back.
    ensures moves_back { let c = choice.now in
        IfOk result (λ gone. moved_of c.viewer gone to.now from.now game.now ≡ plain_choice c) }
{
    read_choice(choice);
    read_aim(from, game);
    read_aim(to, game);
    read_game(game);
    let seen = view(alloc, choice, from, game)?;
    let part = PublicPart::of(seen.public.as_slice()).unwrap();
    let before = audit(alloc, &part, choice, from, game)?;
    let walked = walked(alloc, &part, choice, from, to)?;
    let after = audit(alloc, &part, &walked, to, game)?;
    let words = moved_words(choice, &seen, &before.other, &after, to, game);
    Ok(IdealChoice { words, ..walked })
}
