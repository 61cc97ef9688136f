//! The lines of a text.
ghost use Rattle.std.specs.Prelude.{◌≡◌, ◌<◌, ◌∷◌, length};
ghost use Rattle.express_texts.specs.Lines.{lines_of};

/// The first line, without its LF, and what follows it.
#[tactic(auto, using(crate::proofs::LineLemmas::lines_of_line, crate::proofs::LineLemmas::lines_of_last))]
pub fn first_line(text: &[u8]) -> (&[u8], &[u8])
    requires { 0 < length text.now }
    ensures lines { lines_of text.now ≡ result.0.now ∷ lines_of result.1.now }
    ensures shorter { length result.1.now < length text.now }
{
    for (i, byte) in text.iter().enumerate() {
        if *byte == b'\n' {
            return (&text[..i], &text[i + 1..]);
        }
    }
    (text, &[])
}
