//! How a word ends.
ghost use Rattle.std.specs.Prelude.{◌≡◌, if◌then◌else◌};
ghost use Rattle.desk_around.specs.Ends.{status_by, status_of};

use crate::trouble::Trouble;

/// How a word ends that came to no trouble.
#[derive(Clone, Copy)]
pub enum WordEnd {
    Done,
    /// It was told that the letter isn't written, or may have been.
    NotWritten,
    /// It is done, and letters met.
    Met,
}

/// The end of a word that is done, by whether letters met.
pub fn end_by(met: bool) -> WordEnd
    ensures { result ≡ if met then WordEnd.Met else WordEnd.Done }
{
    if met { WordEnd::Met } else { WordEnd::Done }
}

fn status_by(trouble: &Trouble<'_>) -> u8
    ensures { result ≡ status_by trouble.now }
{
    match *trouble {
        Trouble::NoLetters => 2,
        Trouble::NoLetterAt(_) => 2,
        Trouble::WhichLetter => 2,
        Trouble::Name(_) => 2,
        Trouble::BadLine(_, _) => 3,
        Trouble::Earlier(_) => 3,
        Trouble::NoPairFile(_) => 3,
        Trouble::OtherWidth(_) => 3,
        Trouble::Swapped(_) => 3,
        Trouble::NoCard(_) => 3,
        Trouble::NoLetter(_) => 3,
        Trouble::Old(_) => 3,
        Trouble::InUse => 4,
        _ => 1,
    }
}

/// The status that the program ends with.
pub fn status_of(outcome: &Result<WordEnd, Trouble<'_>>) -> u8
    ensures { result ≡ status_of outcome.now }
{
    match outcome {
        Ok(WordEnd::Done) => 0,
        Ok(WordEnd::NotWritten) => 1,
        Ok(WordEnd::Met) => 5,
        Err(trouble) => status_by(trouble),
    }
}
