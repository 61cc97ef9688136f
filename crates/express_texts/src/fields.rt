//! Lines of a word and a value.
ghost use Rattle.std.specs.Prelude.{◌≡◌};
ghost use Rattle.express_texts.specs.Fields.{value_line, key_line};

use crate::digits::{seed_of, word_at};
use crate::words::after;

/// The field value on a line that begins with this word.
#[tactic(auto, unfolding(crate::specs::Fields::value_line))]
pub fn value_line(word: &[u8], line: &[u8]) -> Option<u128>
    ensures { result ≡ value_line word.now line.now }
{
    let rest = after(word, line)?;
    let (value, rest) = word_at(rest)?;
    if rest.is_empty() { Some(value) } else { None }
}

/// The 32 bytes on a line that begins with this word.
#[tactic(auto, unfolding(crate::specs::Fields::key_line))]
pub fn key_line(word: &[u8], line: &[u8]) -> Option<[u8; 32]>
    ensures { result ≡ key_line word.now line.now }
{
    let digits = after(word, line)?;
    seed_of(digits)
}
