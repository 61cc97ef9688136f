//! What is wrong with bytes that should begin with a frame.
ghost use Rattle.std.specs.Prelude.{Some};
ghost use Rattle.frame_rules.specs.Texts.{fault_text};

use std::fmt;

/// The first wrong field, in the order of judging, or none so far.
#[derive(Clone, Copy, Debug, PartialEq, Eq)]
pub enum FrameFault {
    /// No field that has come whole is wrong, and the bytes end before the frame does.
    Short,
    /// The field at this offset, in bytes, is wrong. A length that doesn't fit its body is at offset 0.
    Malformed(u32),
    /// The version is none that is known; its value.
    Version(u8),
}

impl fmt::Display for FrameFault {
    ghost output = { λ fault. Some (fault_text fault) };

    fn fmt<W: fmt::Write>(&self, f: &mut fmt::Formatter<W>) -> fmt::Result {
        match *self {
            FrameFault::Short => f.write_str("short"),
            FrameFault::Malformed(place) => write!(f, "malformed {place}"),
            FrameFault::Version(version) => write!(f, "version {version}"),
        }
    }
}
