//! By what a letter on its way is named.
ghost use Rattle.std.specs.Prelude.{◌≡◌, ◌≤◌, IfOk, length, string_bytes};
ghost use Rattle.desk_run.specs.Labels.{HasText, Names, label_text};

use desk_letters::{Opened, first_words, open};
use desk_outbox::Outbox;
use desk_texts::check_digits;
use express_words::NoMemory;
use node_journal::Disk;
use std::alloc::Global;

// The text of the letter that these bytes are; all of them where they are none.
fn text_in(message: &[u8]) -> &[u8]
    requires { length message.now ≤ 4096 }
    ensures { HasText message.now result.now }
{
    match open(message) {
        Opened::Letter { id: _, text } => text,
        Opened::Empty => message,
        Opened::Met => message,
    }
}

#[tactic(auto, unfolding(crate::specs::Labels::label_text))]
fn label_text(alloc: Global, words: &str, digits: &str) -> Result<String, NoMemory>
    ensures { IfOk result (λ text. string_bytes text ≡ label_text words.now digits.now) }
{
    let text = format!(in alloc; "\"{words}\" (card {digits})")?;
    Ok(text)
}

/// A letter by its first words, and by the digits at the end of its card.
pub(crate) fn label_of<D: Disk>(alloc: Global, outbox: &Outbox<D>) -> Result<String, NoMemory>
    ensures { IfOk result (λ label. Names outbox.now (string_bytes label)) }
{
    let words = first_words(alloc, text_in(outbox.message()))?;
    let digits = check_digits(alloc, outbox.card())?;
    label_text(alloc, words.as_str(), digits.as_str())
}
