//! The line at a place of a text.
ghost use Rattle.std.specs.Prelude.{◌≡◌, [], ◌∷◌, IfOk, IfErr};
ghost use Rattle.express_texts.specs.declared.fault.TextFault.TheVariants.{Wrong};
ghost use Rattle.express_texts.specs.Lines.{lines_of};

use crate::fault::TextFault;
use crate::text_lines::first_line;

/// The next line, which is line `place` of the whole text, and what follows it.
#[tactic(auto, unfolding(crate::specs::Lines::lines_of))]
pub fn next_line(place: u32, text: &[u8]) -> Result<(&[u8], &[u8]), TextFault>
    ensures found { IfOk result (λ r. lines_of text.now ≡ r.0.now ∷ lines_of r.1.now) }
    ensures missing { IfErr result (λ fault. lines_of text.now ≡ []) }
    ensures place { IfErr result (λ fault. fault ≡ Wrong place) }
{
    if text.is_empty() {
        return Err(TextFault::Wrong(place));
    }
    Ok(first_line(text))
}
