//! What halts the work.
ghost use Rattle.std.specs.Prelude.{◌≡◌, Some};
ghost use Rattle.door_work.specs.Texts.{halt_text, role_text};

use door_exchange::Broken;
use express_words::Role;
use kept_machine::KeepFault;
use std::fmt;

/// Why a machine that doesn't rest goes no further. It may be worked on again, and asks the same.
#[derive(Clone, Copy, Debug, PartialEq, Eq)]
pub enum Halt {
    /// A record isn't on the disk, so its step wasn't taken.
    Keep(KeepFault),
    /// This server gave no answer of a door's.
    Unanswered(Role, Broken),
    /// This server was busy: it did nothing, and may be asked again after a second.
    Busy(Role),
    /// This server says that the ticket isn't the one of the frame's lane and serial.
    NotYours(Role),
    /// What this server answered doesn't bring the machine on.
    Answer(Role),
}

/// What a server is called in texts for people.
pub fn role_text(server: Role) -> &'static str
    ensures { result.now ≡ role_text server }
{
    match server {
        Role::Leader => "the leader",
        Role::Helper => "the helper",
    }
}

impl fmt::Display for Halt {
    ghost output = { λ halted. Some (halt_text halted) };

    fn fmt<W: fmt::Write>(&self, f: &mut fmt::Formatter<W>) -> fmt::Result {
        match *self {
            Halt::Keep(fault) => write!(f, "{fault}"),
            Halt::Unanswered(server, why) => write!(f, "{}: {why}", role_text(server)),
            Halt::Busy(server) => write!(f, "{} is busy", role_text(server)),
            Halt::NotYours(server) => write!(f, "{} takes another ticket", role_text(server)),
            Halt::Answer(server) => write!(f, "{}'s answer leads no further", role_text(server)),
        }
    }
}
