//! Why a sheet isn't read.
ghost use Rattle.std.specs.Prelude.{◌≡◌, Some};
ghost use Rattle.desk_sheets.specs.FaultText.{fault_text};
ghost use Rattle.desk_sheets.specs.declared.fault.SheetFault.TheVariants.{NoMemory};

use express_words::NoMemory as WantOfMemory;
use std::fmt;

/// Why a card or a pair file isn't read.
#[derive(Clone, Copy, Debug, PartialEq, Eq)]
pub enum SheetFault {
    /// It is a card or a pair file of an earlier version, in place of which a new one is to be asked for.
    Earlier,
    /// The first line that isn't of the grammar, counted from 1 for the text's first.
    Wrong(u32),
    /// A pair file where a card was wanted, or a card where a pair file was.
    OtherKind,
    /// No memory was found for what is read.
    NoMemory,
}

/// The words that are printed of it.
impl fmt::Display for SheetFault {
    ghost output = { λ fault. Some (fault_text fault) };

    fn fmt<W: fmt::Write>(&self, f: &mut fmt::Formatter<W>) -> fmt::Result {
        match *self {
            SheetFault::Earlier => write!(f, "of an earlier version"),
            SheetFault::Wrong(line) => write!(f, "bad line {line}"),
            SheetFault::OtherKind => write!(f, "of the other kind"),
            SheetFault::NoMemory => write!(f, "out of memory"),
        }
    }
}

impl From<WantOfMemory> for SheetFault {
    ghost from_gives = { λ _ e. e ≡ NoMemory };

    fn from(_: WantOfMemory) -> Self {
        SheetFault::NoMemory
    }
}
