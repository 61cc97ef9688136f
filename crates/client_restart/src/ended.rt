//! How a request ended.
ghost use Rattle.std.specs.Prelude.{◌≡◌};
ghost use Rattle.client_restart.specs.Cores.{outcome_in, with_message};

use crate::errand::Errand;
use client_core::Outcome;
use express_words::Refusal;

/// How a request ended, with the message of a read or a retire.
#[derive(Debug, Drop)]
pub enum KeptOutcome {
    /// The box of this number is the client's own.
    Registered(u32),
    /// The write is accepted.
    Accepted,
    /// The box held this message, of the client's width.
    Message(Vec<u8>),
    /// A server refused the request.
    Refused(Refusal),
}

/// A request that has ended: its serial, what it was, and how it ended.
#[derive(Debug, Drop)]
pub struct Ended {
    pub serial: u32,
    pub errand: Errand,
    pub outcome: KeptOutcome,
}

/// The outcome, with this message where it is one of a read.
pub(crate) fn kept_outcome(outcome: Outcome, message: Vec<u8>) -> KeptOutcome
    ensures { outcome_in result ≡ with_message outcome message.items }
{
    match outcome {
        Outcome::Registered(number) => KeptOutcome::Registered(number),
        Outcome::Accepted => KeptOutcome::Accepted,
        Outcome::Message => KeptOutcome::Message(message),
        Outcome::Refused(refusal) => KeptOutcome::Refused(refusal),
    }
}
