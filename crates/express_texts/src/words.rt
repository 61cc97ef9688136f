//! Fixed words.
ghost use Rattle.std.specs.Prelude.{◌≡◌};
ghost use Rattle.std.specs.Option.{option_copied};
ghost use Rattle.express_texts.specs.LineFields.{after};

/// What follows these characters.
#[tactic(auto, unfolding(crate::specs::LineFields::after))]
pub fn after<'a>(word: &[u8], bytes: &'a [u8]) -> Option<&'a [u8]>
    ensures { option_copied result ≡ after word.now bytes.now }
{
    let mut wanted = word;
    let mut rest = bytes;
    while let [c, others @ ..] = wanted {
        match rest {
            [b, behind @ ..] if *b == *c => rest = behind,
            _ => return None,
        }
        wanted = others;
    }
    Some(rest)
}
