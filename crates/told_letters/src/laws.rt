//! The law of the letters that are told. The function does nothing: its contract is the law.
ghost use Rattle.told_letters.specs.Laws.{PeeledLettersAreTold};

use letter_pieces::laws;

/// Of a table that can be peeled each letter is told, with its text, whose pieces are all peeled and whose id
/// nobody else uses.
pub fn peeled_letters_are_told()
    ensures { PeeledLettersAreTold }
{
    laws::pieces_are_told_apart();
    laws::letters_are_their_pieces();
}
