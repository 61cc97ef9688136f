//! Which letters are to be told yet.
ghost use Rattle.std.specs.Prelude.{◌≡◌};
ghost use Rattle.owner_mail.specs.News.{is_due, mark_of};

use kept_ledger::{Handling, Ledger, LetterMark};
use told_letters::Letter;

/// By what a letter is known.
pub fn mark_of(letter: &Letter) -> LetterMark
    ensures { result ≡ mark_of letter.now }
{
    LetterMark {
        id: letter.heading.letter.0,
        parts: letter.heading.parts,
    }
}

/// Whether a letter is to be shown, or written into a file: whoever has it in a file has seen it.
pub fn is_due(ledger: &Ledger, letter: &Letter, handling: Handling) -> bool
    ensures { result ≡ is_due handling ledger.now.state.marks letter.now }
{
    let mark = mark_of(letter);
    let unwritten = !ledger.is_marked(mark, Handling::Written);
    match handling {
        Handling::Shown => unwritten && !ledger.is_marked(mark, Handling::Shown),
        Handling::Written => unwritten,
    }
}
