//! Why no try is begun.
ghost use Rattle.std.specs.Prelude.{◌≡◌, Some};
ghost use Rattle.desk_outbox.specs.Texts.{fault_text};
ghost use Rattle.desk_outbox.specs.declared.fault.StartFault.TheVariants as fault;

use client_restart::KeepFault;
use desk_letters::SealFault;
use express_words::NoMemory;
use std::fmt;

/// Why no try is begun. Nothing was sent for it.
#[derive(Clone, Copy, Debug, PartialEq, Eq)]
pub enum StartFault {
    /// The text makes no letter.
    Letter(SealFault),
    /// No serial is left on the lane, and the card has no other.
    Spent,
    /// The try isn't on its disk.
    Keep(KeepFault),
}

impl From<SealFault> for StartFault {
    ghost use Rattle.desk_outbox.specs.declared.fault.StartFault.TheVariants as fault;

    ghost from_gives = { λ why start. start ≡ fault.Letter why };

    fn from(why: SealFault) -> Self {
        StartFault::Letter(why)
    }
}

impl From<KeepFault> for StartFault {
    ghost use Rattle.desk_outbox.specs.declared.fault.StartFault.TheVariants as fault;

    ghost from_gives = { λ why start. start ≡ fault.Keep why };

    fn from(why: KeepFault) -> Self {
        StartFault::Keep(why)
    }
}

impl From<NoMemory> for StartFault {
    ghost use Rattle.kept_machine.specs.declared.fault.KeepFault.TheVariants as keep;
    ghost use Rattle.desk_outbox.specs.declared.fault.StartFault.TheVariants as fault;

    ghost from_gives = { λ why start. start ≡ fault.Keep keep.NoMemory };

    fn from(_: NoMemory) -> Self {
        StartFault::Keep(KeepFault::NoMemory)
    }
}

impl fmt::Display for StartFault {
    ghost output = { λ fault. Some (fault_text fault) };

    fn fmt<W: fmt::Write>(&self, f: &mut fmt::Formatter<W>) -> fmt::Result {
        match self {
            StartFault::Letter(why) => write!(f, "{why}"),
            StartFault::Spent => f.write_str("all numbers of the card's lanes are used up"),
            StartFault::Keep(why) => write!(f, "{why}"),
        }
    }
}
