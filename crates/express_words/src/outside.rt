//! The outside: sources, sinks and nets, each with a count of its faults, and each of them in memory.
//!
//! In a contract a count of faults rose where it is larger than before or stands at 2^64 - 1, the last value
//! of a counter.
ghost use Rattle.std.specs.Prelude.{◌≡◌, ◌≢◌, ℕ, ◌+◌, ◌<◌, ◌≤◌, List, [], length, take, codes, Option, Some, None, IfOk, OnOk, OnErr, is_err};
ghost use Rattle.express_words.specs.Causes.{Rose, HasCause, CountsFault, CountsFailure};
ghost use Rattle.express_words.specs.Seen.{Seen};
ghost use Rattle.express_words.specs.Streams.{Gave, IsAtEnd, IsAtStart, IsBlank, Took, TookPrefix};
ghost use Rattle.express_words.specs.Calls.{Listened, Accepted, Dialled, Adds, GivesTelling, AddsClose};

mod buffers;
mod call_log;
mod memory_conn;
mod memory_net;
mod memory_sink;
mod memory_source;
mod net_ledger;

pub use call_log::CallLog;
pub use memory_conn::MemoryConn;
pub use memory_net::MemoryNet;
pub use memory_sink::MemorySink;
pub use memory_source::MemorySource;
use std::fmt;

/// A call failed, and its object's count of faults rose by one.
#[derive(Clone, Copy, Debug, PartialEq, Eq)]
pub struct Failed;

impl fmt::Display for Failed {
    ghost output = { λ _. Some (codes "the call failed") };

    fn fmt<W: fmt::Write>(&self, f: &mut fmt::Formatter<W>) -> fmt::Result {
        f.write_str("the call failed")
    }
}

/// An object of the outside: a source, a sink, a net or a disk.
pub trait Counted {
    /// Its counts of faults, and what it tells of its bytes or of its calls.
    ghost seen: { Self → Seen };

    /// How often it has failed, up to the greatest number. It never falls.
    fn faults(&self) -> u64
        ensures { result ≡ (seen self.now).faults };
}

/// What bytes come from. A call that fails gives none, and is counted.
pub trait Source: Counted {
    /// Gives bytes into the front of `buf`. Ok(0) for a buffer that isn't empty is the end.
    fn take(&mut self, buf: &mut [u8]) -> Result<usize, Failed>
        ensures bound { IfOk result (λ n. n ≤ length buf.new) }
        ensures gave { IfOk result (λ n. Gave (Self.seen self.old).content (Self.seen self.new).content
            (take n buf.new)) }
        ensures end { IfOk result (λ n. n ≡ 0 → 0 < length buf.old → IsAtEnd (Self.seen self.new).content) }
        ensures failed { OnErr result (Gave (Self.seen self.old).content (Self.seen self.new).content []) }
        ensures writes_nothing { (Self.seen self.new).written ≡ (Self.seen self.old).written }
        ensures cause { HasCause (Self.seen self.old).faults (Self.seen self.new).faults result }
        ensures counts { CountsFault (Self.seen self.old).faults (Self.seen self.new).faults result };
}

/// What takes bytes. A call that fails is counted.
pub trait Sink: Counted {
    /// Takes all of `bytes`, or fails after a prefix of them.
    fn put(&mut self, bytes: &[u8]) -> Result<(), Failed>
        ensures took { OnOk result (Took (Self.seen self.old).written (Self.seen self.new).written bytes.now) }
        ensures failed { OnErr result (TookPrefix (Self.seen self.old).written
            (Self.seen self.new).written bytes.now) }
        ensures gives_nothing { (Self.seen self.new).content ≡ (Self.seen self.old).content }
        ensures cause { HasCause (Self.seen self.old).faults (Self.seen self.new).faults result }
        ensures counts { CountsFault (Self.seen self.old).faults (Self.seen self.new).faults result };
}

/// A connection: a source and a sink with one count for both.
pub trait Conn: Source + Sink {}

/// Connections to and from other programs.
pub trait Net: Counted {
    /// What an accept or a dial gives.
    type Conn: Conn;

    /// Opens the door at the address `at`.
    fn listen(&mut self, at: &str) -> Result<(), Failed>
        ensures call { Adds (Self.seen self.old).calls (Self.seen self.new).calls (Listened at.now (is_err result)) }
        ensures door { CountsFailure (Self.seen self.old).doors (Self.seen self.new).doors result }
        ensures cause { HasCause (Self.seen self.old).faults (Self.seen self.new).faults result }
        ensures counts { CountsFault (Self.seen self.old).faults (Self.seen self.new).faults result };

    /// The next connection at the door.
    fn accept(&mut self) -> Result<Self::Conn, Failed>
        ensures whole { IfOk result (λ conn. (Self.Conn.seen conn).faults ≡ 0) }
        ensures unread { IfOk result (λ conn. IsAtStart (Self.Conn.seen conn).content) }
        ensures unwritten { IfOk result (λ conn. IsBlank (Self.Conn.seen conn).written) }
        ensures tells { IfOk result (λ conn. GivesTelling (Self.seen self.new).calls
            (Self.Conn.seen conn).content (Self.Conn.seen conn).written) }
        ensures call { Adds (Self.seen self.old).calls (Self.seen self.new).calls (Accepted (is_err result)) }
        ensures door { CountsFailure (Self.seen self.old).doors (Self.seen self.new).doors result }
        ensures cause { HasCause (Self.seen self.old).faults (Self.seen self.new).faults result }
        ensures counts { CountsFault (Self.seen self.old).faults (Self.seen self.new).faults result };

    /// A connection to the program at `peer`.
    fn dial(&mut self, peer: &str) -> Result<Self::Conn, Failed>
        ensures whole { IfOk result (λ conn. (Self.Conn.seen conn).faults ≡ 0) }
        ensures unread { IfOk result (λ conn. IsAtStart (Self.Conn.seen conn).content) }
        ensures unwritten { IfOk result (λ conn. IsBlank (Self.Conn.seen conn).written) }
        ensures tells { IfOk result (λ conn. GivesTelling (Self.seen self.new).calls
            (Self.Conn.seen conn).content (Self.Conn.seen conn).written) }
        ensures call { Adds (Self.seen self.old).calls (Self.seen self.new).calls (Dialled peer.now (is_err result)) }
        ensures door { (Self.seen self.new).doors ≡ (Self.seen self.old).doors }
        ensures cause { HasCause (Self.seen self.old).faults (Self.seen self.new).faults result }
        ensures counts { CountsFault (Self.seen self.old).faults (Self.seen self.new).faults result };

    /// The net's count rises exactly where the connection's count isn't 0.
    fn close(&mut self, conn: Self::Conn)
        ensures call { AddsClose (Self.seen self.old).calls (Self.seen self.new).calls (Self.Conn.seen conn).content (Self.Conn.seen conn).written (Self.Conn.seen conn).faults }
        ensures door { (Self.seen self.new).doors ≡ (Self.seen self.old).doors }
        ensures later { (Self.seen self.old).faults ≤ (Self.seen self.new).faults }
        ensures whole { (Self.Conn.seen conn).faults ≡ 0
            → (Self.seen self.new).faults ≡ (Self.seen self.old).faults }
        ensures broken { (Self.Conn.seen conn).faults ≢ 0
            → Rose (Self.seen self.old).faults (Self.seen self.new).faults };
}
