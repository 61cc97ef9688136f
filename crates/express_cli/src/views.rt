//! The text of a view.
ghost use Rattle.std.specs.Prelude.{◌≡◌, [], ◌∷◌, IfOk, string_bytes};
ghost use Rattle.replay_world.specs.Output.{number_text};
ghost use Rattle.express_cli.specs.Cloaks.{numbers_text, numbers_of, view_text};

use express_words::ProofShare;
use std::alloc::{AllocError, Global};
use write_hiding::View;

/// 32 hexadecimal digits, the most significant first.
pub fn number_text(alloc: Global, number: u128) -> Result<String, AllocError>
    ensures { IfOk result (λ text. string_bytes text ≡ number_text number) }
{
    hex::encode(alloc, number.to_be_bytes().as_slice())
}

// Each number behind a space.
fn numbers_text(alloc: Global, numbers: &[u128]) -> Result<String, AllocError>
    ensures { IfOk result (λ text. string_bytes text ≡ numbers_text numbers.now) }
{
    let mut text = String::new(alloc);
    for number in numbers {
        let digits = number_text(alloc, *number)?;
        text.push_str(format!(in alloc; " {digits}")?.as_str())?;
    }
    Ok(text)
}

// The ten words of a share.
fn numbers_of(share: &ProofShare) -> [u128; 10]
    ensures { result ≡ numbers_of share.now }
{
    let [h0, h1, h2, h3, h4] = share.h;
    [
        share.u, share.v, h0, h1, h2, h3, h4, share.a, share.b, share.c,
    ]
}

/// Four lines: the root, the public part, the share of the proof, and what the other server opens and closes.
#[tactic(auto, unfolding(crate::specs::Cloaks::view_text))]
pub fn view_text(alloc: Global, view: &View) -> Result<String, AllocError>
    ensures { IfOk result (λ text. string_bytes text ≡ view_text view.now) }
{
    let root = number_text(alloc, view.own_root)?;
    let public = hex::encode(alloc, view.public.as_slice())?;
    let proof = numbers_text(alloc, &numbers_of(&view.proof))?;
    let seen = [view.opened.d, view.opened.e, view.closed.o, view.closed.tau];
    let other = numbers_text(alloc, &seen)?;
    format!(in alloc; "root {root}\npublic {public}\nproof{proof}\nother{other}\n")
}
