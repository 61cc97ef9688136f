//! Why an address isn't registered.
ghost use Rattle.std.specs.Prelude.{Some};
ghost use Rattle.box_registry.specs.Texts.{fault_text};

use std::fmt;

/// Why an address isn't registered, in the words of a refusal.
#[derive(Clone, Copy, Debug, PartialEq, Eq)]
pub enum RegFault {
    /// The address stands at this box.
    Taken(u32),
    /// As many boxes as this limit stand.
    Full(u32),
}

impl fmt::Display for RegFault {
    ghost output = { λ fault. Some (fault_text fault) };

    fn fmt<W: fmt::Write>(&self, f: &mut fmt::Formatter<W>) -> fmt::Result {
        match *self {
            RegFault::Taken(box_number) => write!(f, "taken {box_number}"),
            RegFault::Full(limit) => write!(f, "full {limit}"),
        }
    }
}
