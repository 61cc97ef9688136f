//! How a server ends.
ghost use Rattle.std.specs.Prelude.{◌≡◌, Some};
ghost use Rattle.server_words.specs.Texts.{status_of, stop_of, cause_text, stop_text};

use express_words::NoMemory;
use server_settings::{BadSettings, Key, SettingsFault};
use std::fmt;

/// Why the program ends.
#[derive(Drop)]
pub enum Stop {
    /// It did what it was asked for.
    Ended,
    /// Its words are none of a server's.
    Words,
    /// Its settings aren't taken.
    Settings(BadSettings),
    /// The folder or the log can't be opened.
    Unopened,
    /// The log failed while the server ran.
    LogFailed,
    /// The address under this key can't be used.
    Address(Key),
    /// No memory is left.
    NoMemory,
    /// No server answers at the status door.
    NoServer,
}

impl Stop {
    /// The exit status.
    pub fn status(&self) -> u8
        ensures { result ≡ status_of self.now }
    {
        match self {
            Stop::Ended => 0,
            Stop::Words => 2,
            Stop::Settings(_) => 3,
            Stop::Unopened => 4,
            Stop::LogFailed => 5,
            Stop::Address(_) => 6,
            Stop::NoMemory => 7,
            Stop::NoServer => 8,
        }
    }
}

impl From<SettingsFault> for Stop {
    ghost from_gives = { λ fault stop. stop ≡ stop_of fault };

    fn from(fault: SettingsFault) -> Self {
        match fault {
            SettingsFault::Bad(wrong) => Stop::Settings(wrong),
            SettingsFault::NoMemory => Stop::NoMemory,
        }
    }
}

impl From<NoMemory> for Stop {
    ghost use Rattle.server_words.specs.declared.stop.Stop.TheVariants.{NoMemory};

    ghost from_gives = { λ _ stop. stop ≡ NoMemory };

    fn from(_: NoMemory) -> Self {
        Stop::NoMemory
    }
}

/// The cause alone.
#[derive(Clone, Copy)]
struct Cause<'a>(&'a Stop);

impl fmt::Display for Cause<'_> {
    ghost output = { λ cause. Some (cause_text cause.0.now) };

    fn fmt<W: fmt::Write>(&self, f: &mut fmt::Formatter<W>) -> fmt::Result {
        match self.0 {
            Stop::Ended => f.write_str("done"),
            Stop::Words => f.write_str("these are no words of express-server, see --help"),
            Stop::Settings(wrong) => write!(f, "bad settings, {wrong}"),
            Stop::Unopened => f.write_str("the folder or the log can't be opened"),
            Stop::LogFailed => f.write_str("the log failed while the server ran"),
            Stop::Address(key) => write!(f, "the address under {key} can't be used"),
            Stop::NoMemory => f.write_str("out of memory"),
            Stop::NoServer => f.write_str("no server answers at the address under status"),
        }
    }
}

/// The status and the cause.
impl fmt::Display for Stop {
    ghost output = { λ stop. Some (stop_text stop) };

    fn fmt<W: fmt::Write>(&self, f: &mut fmt::Formatter<W>) -> fmt::Result {
        let status = self.status();
        let cause = Cause(self);
        write!(f, "stopped with status {status}, {cause}")
    }
}
