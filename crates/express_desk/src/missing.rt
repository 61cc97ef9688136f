//! What is missing before the top call.
ghost use Rattle.std.specs.Prelude.{◌≡◌, ◌≢◌, Some};
ghost use Rattle.std.specs.IoError.{error_kind};
ghost use Rattle.express_desk.specs.Missing.{missing_text, status_without};

use std::io::ErrorKind;
use std::{fmt, io};

/// What is missing before the top call. Nothing was done.
#[derive(Clone, Copy, Debug, PartialEq, Eq)]
pub enum Missing {
    /// Memory for the words or a path.
    Memory,
    /// A word of the command line that is text.
    Words,
    /// The user's own folder, where the words name no desk.
    Home,
    /// A file that stands in for a closed input or output.
    Null,
    /// A proxy's place that is text.
    Proxy,
    /// A seed.
    Seed,
}

impl fmt::Display for Missing {
    ghost output = { λ missing. Some (missing_text missing) };

    fn fmt<W: fmt::Write>(&self, f: &mut fmt::Formatter<W>) -> fmt::Result {
        f.write_str(match self {
            Missing::Memory => "there is no memory left; try again later",
            Missing::Words => "a word that you typed is no text",
            Missing::Home => "HOME names no folder; name the desk's by --desk FOLDER",
            Missing::Null => "the system has no /dev/null",
            Missing::Proxy => "EXPRESS_PROXY is no text",
            Missing::Seed => "the system gives no random bytes (/dev/urandom)",
        })
    }
}

impl Missing {
    /// 2 for wrong words, and else 1: it is safe to try again.
    pub fn status(self) -> u8
        ensures { result ≡ status_without self }
    {
        match self {
            Missing::Words | Missing::Proxy => 2,
            Missing::Memory | Missing::Home | Missing::Null | Missing::Seed => 1,
        }
    }
}

/// Why the words can't be had.
pub fn why_no_words(error: &io::Error) -> Missing
    ensures memory { error_kind error.now ≡ ErrorKind.OutOfMemory → result ≡ Missing.Memory }
    ensures other { error_kind error.now ≢ ErrorKind.OutOfMemory → result ≡ Missing.Words }
{
    if error.kind() == ErrorKind::OutOfMemory {
        Missing::Memory
    } else {
        Missing::Words
    }
}
