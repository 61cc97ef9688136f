//! Why a name isn't taken.
ghost use Rattle.std.specs.Prelude.{Some};
ghost use Rattle.kept_ledger.specs.Texts.{name_text};

use std::fmt;

/// Why a name isn't taken, in the order in which this is judged.
#[derive(Clone, Copy, Debug, PartialEq, Eq)]
pub enum NameFault {
    /// It isn't 1 to 32 lower-case letters, digits and `-`.
    Form,
    /// The desk has boxes with it already.
    Used,
    /// There are no addresses for it, or more than 64.
    Count,
    /// An address stands among them twice, or was drawn before.
    SameAddress,
    /// The pair has no room for so many boxes: so many more have room.
    NoRoom(u32),
}

impl fmt::Display for NameFault {
    ghost output = { λ fault. Some (name_text fault) };

    fn fmt<W: fmt::Write>(&self, f: &mut fmt::Formatter<W>) -> fmt::Result {
        match self {
            NameFault::Form => f.write_str("a name is 1 to 32 lower-case letters, digits and -"),
            NameFault::Used => f.write_str("the name is used already"),
            NameFault::Count => f.write_str("1 to 64 boxes have one name"),
            NameFault::SameAddress => f.write_str("an address was drawn twice"),
            NameFault::NoRoom(left) => write!(f, "no room for so many boxes: {left} are left"),
        }
    }
}
