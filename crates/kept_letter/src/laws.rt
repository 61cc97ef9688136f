//! What holds of letters on their way. The functions are empty but for the laws that they stand on: their
//! contracts are the laws.
ghost use Rattle.kept_letter.specs.Draws.{TriesShareNoDraw};
ghost use Rattle.kept_letter.specs.Laws.{LettersAreRunsOfTries, LettersKeepTheirOpening};
ghost use Rattle.kept_letter.specs.Laws.{PiecesGoToTheirPlaces};

use letter_copies::laws::copies_are_written_once;

/// A try's seed and its two tickets are drawn for it alone: no two draws of a letter have a byte in common.
pub fn tries_share_no_draw()
    ensures { TriesShareNoDraw }
{}

/// Whatever was noted: the frames that a letter has to send are those of writes of its own pieces, each at a
/// place of its part, and a proof's statement is that of the write's own key and public part.
pub fn pieces_go_to_their_places()
    ensures places { PiecesGoToTheirPlaces }
    ensures opening { LettersKeepTheirOpening }
{}

/// Whatever was noted: a letter's copies stand as a run of tries leaves them, so each is written once at
/// most, and what its end tells is true (`letter_copies::laws`).
pub fn letters_are_runs_of_tries()
    ensures { LettersAreRunsOfTries }
{
    copies_are_written_once();
}
