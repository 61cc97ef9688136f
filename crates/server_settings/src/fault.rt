//! Why a settings file isn't taken.
ghost use Rattle.std.specs.Prelude.{◌≡◌, Some};
ghost use Rattle.server_settings.specs.Faults.{bad_text, fault_text};
ghost use Rattle.server_settings.specs.Judging.{Tells};
ghost use Rattle.server_settings.specs.declared.fault.SettingsFault.TheVariants.{NoMemory};

use crate::address::Address;
use crate::found::Found;
use crate::key::Key;
use express_words::{NoMemory as WantOfMemory, Text};
use std::fmt;

/// The first thing in a settings file that is wrong.
#[derive(Drop)]
pub enum BadSettings {
    /// It isn't TOML in UTF-8.
    NotToml,
    /// A key that no server has: the first in the order of their bytes.
    Unknown(Text),
    /// A key that is needed isn't there.
    Missing(Key),
    /// Something is found under the key that it doesn't take.
    Wrong(Key, Found),
    /// Owners' and strangers' lanes are none or more than 256 together.
    Lanes { owners: u32, strangers: u32 },
    /// Two keys have the same address.
    Same(Key, Key, Address),
}

/// Why a settings file isn't taken.
#[derive(Drop)]
pub enum SettingsFault {
    /// It is wrong.
    Bad(BadSettings),
    /// No memory was found for what is read.
    NoMemory,
}

impl From<WantOfMemory> for SettingsFault {
    ghost from_gives = { λ _ e. e ≡ NoMemory };

    fn from(_: WantOfMemory) -> Self {
        SettingsFault::NoMemory
    }
}

/// What is wrong, as a fault.
pub(crate) fn bad(wrong: BadSettings) -> SettingsFault
    ensures { Tells wrong result }
{
    SettingsFault::Bad(wrong)
}

impl fmt::Display for BadSettings {
    ghost output = { λ bad. Some (bad_text bad) };

    fn fmt<W: fmt::Write>(&self, f: &mut fmt::Formatter<W>) -> fmt::Result {
        match self {
            BadSettings::NotToml => f.write_str("the settings aren't TOML in UTF-8"),
            BadSettings::Unknown(name) => {
                let name = name.as_str();
                write!(f, "no key is called {name}")
            }
            BadSettings::Missing(key) => {
                let takes = key.takes();
                write!(f, "{key} is missing, and takes {takes}")
            }
            BadSettings::Wrong(key, found) => {
                let takes = key.takes();
                write!(f, "{key} is {found}, and takes {takes}")
            }
            BadSettings::Lanes { owners, strangers } => write!(
                f,
                "owners is {owners} and strangers is {strangers}, and together they take 1 to 256"
            ),
            BadSettings::Same(one, other, address) => {
                let address = address.as_str();
                write!(
                    f,
                    "{one} and {other} are both \"{address}\", and take addresses that differ"
                )
            }
        }
    }
}

impl fmt::Display for SettingsFault {
    ghost output = { λ fault. Some (fault_text fault) };

    fn fmt<W: fmt::Write>(&self, f: &mut fmt::Formatter<W>) -> fmt::Result {
        match self {
            SettingsFault::Bad(wrong) => write!(f, "bad settings: {wrong}"),
            SettingsFault::NoMemory => f.write_str("out of memory"),
        }
    }
}
