//! Why a text isn't read.
ghost use Rattle.std.specs.Prelude.{◌≡◌, Some};
ghost use Rattle.express_texts.specs.FaultText.{fault_text};
ghost use Rattle.express_texts.specs.declared.fault.TextFault.TheVariants.{NoMemory};

use express_words::{NoMemory as WantOfMemory, Text};
use std::alloc::AllocFailed;
use std::fmt;

/// Why a text isn't read.
#[derive(Drop)]
pub enum TextFault {
    /// The first line that isn't of the grammar, counted from 1.
    Wrong(u32),
    /// The first key of a text of settings that is missing or breaks a rule.
    WrongKey(Text),
    /// No memory was found for what is read, or for a key's name.
    NoMemory,
}

/// The words that are printed of it.
impl fmt::Display for TextFault {
    ghost output = { λ fault. Some (fault_text fault) };

    fn fmt<W: fmt::Write>(&self, f: &mut fmt::Formatter<W>) -> fmt::Result {
        match self {
            TextFault::Wrong(line) => write!(f, "bad line {line}"),
            TextFault::WrongKey(key) => {
                let key = key.as_str();
                write!(f, "bad settings {key}")
            }
            TextFault::NoMemory => write!(f, "out of memory"),
        }
    }
}

/// The same words.
impl fmt::Debug for TextFault {
    fn fmt<W: fmt::Write>(&self, f: &mut fmt::Formatter<W>) -> fmt::Result {
        fmt::Display::fmt(self, f)
    }
}

impl<T: Drop> From<AllocFailed<T>> for TextFault {
    ghost from_gives = { λ _ e. e ≡ NoMemory };

    fn from(_: AllocFailed<T>) -> Self {
        TextFault::NoMemory
    }
}

impl From<WantOfMemory> for TextFault {
    ghost from_gives = { λ _ e. e ≡ NoMemory };

    fn from(_: WantOfMemory) -> Self {
        TextFault::NoMemory
    }
}
