//! By what a letter on its way is named.
ghost use Rattle.std.specs.Prelude.{◌≡◌, IfOk, string_bytes};
ghost use Rattle.desk_send.specs.Labels.{label_of, label_text, number_of};

use desk_letters::first_words;
use desk_outside::Slot;
use desk_sheets::check_digits;
use express_words::NoMemory;
use kept_letter::LetterOnItsWay;
use std::alloc::Global;

#[tactic(auto, unfolding(crate::specs::Labels::label_text))]
fn label_text(alloc: Global, words: &str, digits: &str) -> Result<String, NoMemory>
    ensures { IfOk result (λ text. string_bytes text ≡ label_text words.now digits.now) }
{
    let text = format!(in alloc; "\"{words}\" (card {digits})")?;
    Ok(text)
}

/// A letter by its first words, and by the digits at the end of its card.
pub(crate) fn label_of(alloc: Global, letter: &LetterOnItsWay) -> Result<String, NoMemory>
    ensures { IfOk result (λ label. string_bytes label ≡ label_of letter.now) }
{
    let words = first_words(alloc, letter.text())?;
    let digits = check_digits(alloc, &letter.plan().card)?;
    label_text(alloc, words.as_str(), digits.as_str())
}

/// The number of a place, as people count.
pub(crate) fn number_of(slot: Slot) -> u32
    ensures { result ≡ number_of slot }
{
    u32::from(slot.number) + 1
}
