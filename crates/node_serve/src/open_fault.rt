//! Why a server isn't opened.
ghost use Rattle.std.specs.Prelude.{◌≡◌, Some, IsNone, IfSome};
ghost use Rattle.node_serve.specs.KeptOpening.{fault_text, key_text, IsSame, DiffersAt};

use node_restart::{KeepFault, Opening};
use std::fmt;

/// What two openings are compared by, in this order.
#[derive(Clone, Copy, Debug, PartialEq, Eq)]
pub enum SettingsKey {
    Role,
    Width,
    Boxes,
    Lanes,
    Window,
}

impl SettingsKey {
    /// Its name in the text of settings.
    pub fn name(self) -> &'static str
        ensures { result.now ≡ key_text self }
    {
        match self {
            SettingsKey::Role => "role",
            SettingsKey::Width => "width",
            SettingsKey::Boxes => "boxes",
            SettingsKey::Lanes => "lanes",
            SettingsKey::Window => "window",
        }
    }
}

impl fmt::Display for SettingsKey {
    ghost output = { λ key. Some (key_text key) };

    fn fmt<W: fmt::Write>(&self, f: &mut fmt::Formatter<W>) -> fmt::Result {
        f.write_str(self.name())
    }
}

/// Why a server isn't opened.
#[derive(Clone, Copy, Debug, PartialEq, Eq)]
pub enum OpenFault {
    /// Its journal's fault, or no memory was found.
    Keep(KeepFault),
    /// The journal is that of a server with another value of this setting.
    Differs(SettingsKey),
}

impl fmt::Display for OpenFault {
    ghost output = { λ fault. Some (fault_text fault) };

    fn fmt<W: fmt::Write>(&self, f: &mut fmt::Formatter<W>) -> fmt::Result {
        match self {
            OpenFault::Keep(fault) => write!(f, "{fault}"),
            OpenFault::Differs(key) => write!(f, "the journal has another {key}"),
        }
    }
}

/// The first setting in which an opening differs from another, if there is one. Seeds aren't compared.
#[tactic(auto, using(express_words::proofs::SettledLaws::one_settings))]
pub(crate) fn first_difference(a: &Opening, b: &Opening) -> Option<SettingsKey>
    ensures some { IfSome result (λ key. DiffersAt key a.now b.now) }
    ensures none { IsNone result → IsSame a.now b.now }
{
    if a.role != b.role {
        Some(SettingsKey::Role)
    } else if a.settings.width != b.settings.width {
        Some(SettingsKey::Width)
    } else if a.settings.boxes != b.settings.boxes {
        Some(SettingsKey::Boxes)
    } else if a.settings.lanes != b.settings.lanes {
        Some(SettingsKey::Lanes)
    } else if a.settings.window != b.settings.window {
        Some(SettingsKey::Window)
    } else {
        None
    }
}
