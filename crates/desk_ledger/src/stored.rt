//! What was stored of a request that has ended.
ghost use Rattle.std.specs.Prelude.{◌≡◌};
ghost use Rattle.client_restart.specs.Cores.{ended_in};
ghost use Rattle.desk_ledger.specs.Storing.{stored_of};

use client_restart::{Ended, Errand, KeptOutcome};
use express_words::Refusal;

/// A request that has ended, whose outcome is stored.
#[derive(Clone, Copy, Debug, PartialEq, Eq)]
pub struct Stored {
    pub serial: u32,
    pub errand: Errand,
    /// Why a server refused it.
    pub refusal: Option<Refusal>,
}

impl Stored {
    pub(crate) fn of(ended: &Ended) -> Stored
        ensures { result ≡ stored_of (ended_in ended.now) }
    {
        let refusal = match ended.outcome {
            KeptOutcome::Refused(refusal) => Some(refusal),
            KeptOutcome::Registered(_) => None,
            KeptOutcome::Accepted => None,
            KeptOutcome::Message(_) => None,
        };
        Stored {
            serial: ended.serial,
            errand: ended.errand,
            refusal,
        }
    }
}
