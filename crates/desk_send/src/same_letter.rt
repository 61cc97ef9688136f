//! Whether a letter that is on its way is the one that is to be left.
ghost use Rattle.std.specs.Prelude.{◌≡◌, ◌≢◌, ◌↔◌, IsTrue, false, true};
ghost use Rattle.desk_send.specs.Letters.{Carries};

use desk_sheets::Card;
use kept_letter::{KeptLetter, LetterOnItsWay};
use kept_machine::Kept;
use node_journal::Disk;

/// Whether two cards are the same.
pub(crate) fn is_same_card(one: &Card, other: &Card) -> bool
    ensures same { result ≡ true → one.now ≡ other.now }
    ensures other { result ≡ false → one.now ≢ other.now }
{
    one.width == other.width
        && one.until == other.until
        && one.leader.as_str() == other.leader.as_str()
        && one.helper.as_str() == other.helper.as_str()
        && one.addresses.as_slice() == other.addresses.as_slice()
}

/// Whether a letter goes out with this card.
pub(crate) fn has_card<D: Disk>(letter: &Kept<KeptLetter, D>, card: &Card) -> bool
    ensures same { result ≡ true → letter.now.machine.letter.plan.card ≡ card.now }
    ensures other { result ≡ false → letter.now.machine.letter.plan.card ≢ card.now }
{
    is_same_card(&letter.machine().letter().plan().card, card)
}

fn is_same_text(one: &[u8], other: &[u8]) -> bool
    ensures { IsTrue result ↔ (one.now ≡ other.now) }
{
    one == other
}

fn carries(letter: &LetterOnItsWay, card: &Card, text: &[u8]) -> bool
    ensures same { result ≡ true → Carries card.now text.now letter.now }
    ensures other { result ≡ false → Carries card.now text.now letter.now → ⊥ }
{
    is_same_card(&letter.plan().card, card) && is_same_text(letter.text(), text)
}

/// Whether the letter that is on its way has this text, and goes out with this card.
pub(crate) fn is_of<D: Disk>(letter: &Kept<KeptLetter, D>, card: &Card, text: &[u8]) -> bool
    ensures same { result ≡ true → Carries card.now text.now letter.now.machine.letter }
    ensures other { result ≡ false → Carries card.now text.now letter.now.machine.letter → ⊥ }
{
    carries(letter.machine().letter(), card, text)
}
