//! The papers that people hand out.
ghost use Rattle.std.specs.Prelude.{◌≡◌, IfOk};
ghost use Rattle.express_words.specs.Causes.{HasCause, CountsFault};
ghost use Rattle.express_words.specs.Streams.{IsAtStart};

use express_words::outside::{Counted, Failed, Source};

/// What became of a file that was to be written.
#[derive(Clone, Copy, Debug, PartialEq, Eq)]
pub enum Written {
    /// It is new, and the disk has it.
    New,
    /// A file of that name was there and has these very bytes, and the disk has it.
    Before,
}

/// Files that are named on the command line: pair files, cards and letters. With a count of its faults.
pub trait Papers: Counted {
    /// What a read gives.
    type Paper: Source + Drop;

    /// The file at this path, from its first byte on.
    fn read(&mut self, path: &str) -> Result<Self::Paper, Failed>
        ensures whole { IfOk result (λ paper. (Self.Paper.seen paper).faults ≡ 0) }
        ensures unread { IfOk result (λ paper. IsAtStart (Self.Paper.seen paper).content) }
        ensures cause { HasCause (Self.seen self.old).faults (Self.seen self.new).faults result }
        ensures counts { CountsFault (Self.seen self.old).faults (Self.seen self.new).faults result };

    /// Writes a new file of this name into this folder, which its user alone may read, and waits until the disk has it.
    /// The folder is made where there is none. Whatever has that name stays as it is: it is a fault, unless it is a file
    /// with these very bytes.
    fn write(&mut self, folder: &str, name: &str, bytes: &[u8]) -> Result<Written, Failed>
        ensures cause { HasCause (Self.seen self.old).faults (Self.seen self.new).faults result }
        ensures counts { CountsFault (Self.seen self.old).faults (Self.seen self.new).faults result };
}
