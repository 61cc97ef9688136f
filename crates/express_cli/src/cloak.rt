//! Shows what one server sees of a write, and of another write under the moved choice.
ghost use Rattle.std.specs.Prelude.{◌≡◌, ◌≢◌, ◌≤◌, length, IfOk, string_bytes, AllPairs, Contains};
ghost use Rattle.express_words.specs.Limits.{IsWidth};
ghost use Rattle.write_hiding.specs.Choices.{plain_aim};
ghost use Rattle.write_hiding.specs.Views.{view_of};
ghost use Rattle.express_cli.specs.Cloaks.{aim_in, view_text, IsCloakText};
ghost use Rattle.express_cli.specs.Ends.{Prints, WorkMay};
ghost use Rattle.express_cli.specs.declared.words.Command.TheVariants.{Cloak};

use crate::End;
use crate::drawing::drawn_choice;
use crate::texts::{OUT_OF_MEMORY, say, say_bad_line};
use crate::views::view_text;
use express_texts::{AimText, CloakGame, TextFault, read_cloak};
use express_words::NoMemory;
use express_words::outside::Sink;
use std::alloc::Global;
use write_hiding::{Aim, Game, IdealChoice, moved, view};

fn aim_of(aim: &AimText) -> Aim
    ensures { plain_aim result ≡ aim_in aim.now }
{
    Aim {
        target: aim.address,
        message: aim.message.as_slice(),
    }
}

// The text of what the viewer sees of a write to an aim under a choice.
fn seen_text(
    alloc: Global,
    choice: &IdealChoice,
    aim: &Aim,
    rules: &Game,
) -> Result<String, NoMemory>
    requires viewer { choice.now.viewer ≤ 1 }
    requires levels { length choice.now.levels ≡ 128 }
    requires block { length choice.now.last_block ≡ length aim.now.message.now }
    requires width { IsWidth (length aim.now.message.now) }
    ensures { let c = choice.now in
        IfOk result (λ text. string_bytes text ≡ view_text (view_of c.viewer c aim.now rules.now)) }
{
    let seen = view(alloc, choice, aim, rules)?;
    Ok(view_text(alloc, &seen)?)
}

// The text of what the viewer sees of the old write, and of the new one under the moved choice; it can't tell
// them apart.
#[tactic(auto, unfolding(crate::specs::Cloaks::old_view, crate::specs::Cloaks::new_view, crate::specs::Cloaks::cloak_text))]
fn cloak_text(alloc: Global, game: &CloakGame) -> Result<String, NoMemory>
    requires viewer { game.now.viewer ≤ 1 }
    requires width { IsWidth game.now.width }
    requires old_message { length game.now.old_aim.message ≡ game.now.width }
    requires new_message { length game.now.new_aim.message ≡ game.now.width }
    requires distinct { AllPairs (λ p q. p ≢ q) game.now.addresses }
    requires old_registered { Contains game.now.addresses game.now.old_aim.address }
    requires new_registered { Contains game.now.addresses game.now.new_aim.address }
    ensures { IfOk result (λ text. IsCloakText game.now (string_bytes text)) }
{
    let choice = drawn_choice(alloc, game.viewer, &game.seed, game.width)?;
    let from = aim_of(&game.old_aim);
    let to = aim_of(&game.new_aim);
    let ckey = game.ckey;
    let rules = Game {
        addresses: game.addresses.as_slice(),
        ckey,
        sigma: game.sigma,
    };
    let old = seen_text(alloc, &choice, &from, &rules)?;
    let gone = moved(alloc, &choice, &from, &to, &rules)?;
    drop(choice);
    let new = seen_text(alloc, &gone, &to, &rules)?;
    drop(gone);
    Ok(format!(in alloc; "{old}{new}end\n")?)
}

/// Shows both views of the game that the text spells.
#[tactic(auto, using(crate::proofs::Writing::said))]
pub fn cloak<K: Sink>(alloc: Global, text: &[u8], out: &mut K) -> End
    ensures ends { Prints (WorkMay Cloak text.now)
        (K.seen out.old) (K.seen out.new) result }
{
    let game = match read_cloak(alloc, text) {
        Ok(game) => game,
        Err(TextFault::Wrong(line)) => return say_bad_line(alloc, out, line),
        Err(_) => return say(out, OUT_OF_MEMORY, End::OutOfMemory),
    };
    match cloak_text(alloc, &game) {
        Err(_) => say(out, OUT_OF_MEMORY, End::OutOfMemory),
        Ok(text) => say(out, text.as_str(), End::Done),
    }
}
