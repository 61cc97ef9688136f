//! Why a text makes no letter.
ghost use Rattle.std.specs.Prelude.{Some};
ghost use Rattle.letter_pieces.specs.FaultText.{fault_text};

use std::fmt;

/// Why a text makes no letter.
#[derive(Clone, Copy, Debug, PartialEq, Eq)]
pub enum LetterFault {
    /// There is no text.
    NoText,
    /// The text is too long: so many bytes are the most that fit.
    TooLong(u32),
}

/// The words that are printed of it.
impl fmt::Display for LetterFault {
    ghost output = { λ fault. Some (fault_text fault) };

    fn fmt<W: fmt::Write>(&self, f: &mut fmt::Formatter<W>) -> fmt::Result {
        match self {
            LetterFault::NoText => f.write_str("a letter has at least one byte"),
            LetterFault::TooLong(most) => write!(
                f,
                "the letter is too long: at most {most} bytes fit"
            ),
        }
    }
}
