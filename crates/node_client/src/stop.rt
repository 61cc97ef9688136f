//! What stops the work.
ghost use Rattle.std.specs.Prelude.{◌≡◌, Some};
ghost use Rattle.node_client.specs.Texts.{stop_text};
ghost use Rattle.node_client.specs.Steps.{stop_at};

use express_words::Refusal;
use node_exchange::Broken;
use std::fmt;

/// Why a client's requests aren't worked off to the last.
#[derive(Clone, Copy, Debug, PartialEq, Eq)]
pub enum Stop {
    /// A step's answer ended early, was no frame, or was no reply to the step.
    Answer,
    /// A server didn't take a step's frame; the same one may be sent again.
    Later(Refusal),
    /// The client's last serial was used.
    Spent,
    /// The client has room for no further box.
    Full,
    /// An exchange failed; the net's count of faults.
    Fault(u64),
}

impl From<Broken> for Stop {
    ghost use Rattle.node_client.specs.Steps.{stop_at};

    ghost from_gives = { λ why stop. stop ≡ stop_at why };

    fn from(why: Broken) -> Self {
        match why {
            Broken::Fault(count) => Stop::Fault(count),
            Broken::Early(_) => Stop::Answer,
            Broken::Wrong(_) => Stop::Answer,
        }
    }
}

impl fmt::Display for Stop {
    ghost output = { λ stop. Some (stop_text stop) };

    fn fmt<W: fmt::Write>(&self, f: &mut fmt::Formatter<W>) -> fmt::Result {
        match *self {
            Stop::Answer => f.write_str("answer"),
            Stop::Later(refusal) => write!(f, "{refusal}"),
            Stop::Spent => f.write_str("spent"),
            Stop::Full => f.write_str("full"),
            Stop::Fault(_) => f.write_str("net fault"),
        }
    }
}
