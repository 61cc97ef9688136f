//! Why work that is told as it goes is cut off.
ghost use Rattle.std.specs.Prelude.{◌≡◌, Some};
ghost use Rattle.client_run.specs.Texts.{untold_text};

use express_words::NoMemory;
use node_client::Stop;
use std::alloc::AllocError;
use std::fmt;

/// Why the text that is next of a run isn't told.
#[derive(Clone, Copy, Debug, PartialEq, Eq)]
pub enum Untold {
    /// It found no memory, and nothing of it was written.
    NoMemory,
    /// The sink failed after a front of it.
    Unwritten,
}

impl From<NoMemory> for Untold {
    ghost use Rattle.client_run.specs.declared.cut.Untold.TheVariants.{NoMemory as WantsMemory};

    ghost from_gives = { λ _ untold. untold ≡ WantsMemory };

    fn from(_: NoMemory) -> Self {
        Untold::NoMemory
    }
}

impl From<AllocError> for Untold {
    ghost use Rattle.client_run.specs.declared.cut.Untold.TheVariants.{NoMemory as WantsMemory};

    ghost from_gives = { λ _ untold. untold ≡ WantsMemory };

    fn from(_: AllocError) -> Self {
        Untold::NoMemory
    }
}

impl fmt::Display for Untold {
    ghost output = { λ untold. Some (untold_text untold) };

    fn fmt<W: fmt::Write>(&self, f: &mut fmt::Formatter<W>) -> fmt::Result {
        match *self {
            Untold::NoMemory => f.write_str("out of memory"),
            Untold::Unwritten => f.write_str("write fault"),
        }
    }
}

/// Why work on requests ends before its last request, or before that is told.
#[derive(Clone, Copy, Debug, PartialEq, Eq)]
pub enum Cut {
    /// The last that was told came to an end with which the work doesn't go on.
    Broken,
    /// What stops any client's work.
    Stopped(Stop),
    /// The last that came to its end isn't told.
    Untold(Untold),
}
