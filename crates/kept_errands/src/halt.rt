//! What halts the work.
ghost use Rattle.std.specs.Prelude.{◌≡◌, Some};
ghost use Rattle.kept_errands.specs.Steps.{halt_at};
ghost use Rattle.kept_errands.specs.Texts.{halt_text};
ghost use Rattle.kept_errands.specs.declared.halt.Halt.TheVariants as halt;

use client_restart::KeepFault;
use node_client::Stop;
use node_exchange::Broken;
use std::fmt;

/// Why a request isn't at its end. It may be worked on again, with the same frames.
#[derive(Clone, Copy, Debug, PartialEq, Eq)]
pub enum Halt {
    /// What was heard, or what the program above notes, isn't on the disk.
    Keep(KeepFault),
    /// A step had no answer that ends it.
    Stop(Stop),
}

impl From<Broken> for Halt {
    ghost use Rattle.kept_errands.specs.Steps.{halt_at};

    ghost from_gives = { λ why halt. halt ≡ halt_at why };

    fn from(why: Broken) -> Self {
        Halt::Stop(Stop::from(why))
    }
}

impl From<KeepFault> for Halt {
    ghost use Rattle.kept_errands.specs.declared.halt.Halt.TheVariants as halt;

    ghost from_gives = { λ fault halted. halted ≡ halt.Keep fault };

    fn from(fault: KeepFault) -> Self {
        Halt::Keep(fault)
    }
}

impl fmt::Display for Halt {
    ghost output = { λ halted. Some (halt_text halted) };

    fn fmt<W: fmt::Write>(&self, f: &mut fmt::Formatter<W>) -> fmt::Result {
        match *self {
            Halt::Keep(fault) => write!(f, "{fault}"),
            Halt::Stop(stop) => write!(f, "{stop}"),
        }
    }
}
