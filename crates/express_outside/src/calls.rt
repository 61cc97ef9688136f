//! The system's calls on what gives and what takes bytes, each made once.
ghost use Rattle.std.specs.Prelude.{◌≡◌, ◌≢◌, ◌<◌, ◌≤◌, ℕ, List, length, take, [], Option, None, Some, Result, IfOk, OnErr};
ghost use Rattle.std.specs.Io.KnownBytes.{WriteAppends};
ghost use Rattle.express_words.specs.Streams.{Gave, IsAtEnd};
ghost use Rattle.std.specs.IoError.{error_kind};
ghost use Rattle.express_outside.specs.Calls.{added};

use crate::history::History;
use std::io;
use std::io::{ErrorKind, Read, Write};

/// Why a call gave nothing.
#[derive(Clone, Copy, Debug, PartialEq, Eq)]
pub enum Trouble {
    /// A signal came first, as when a process is stopped and goes on: the call may be made again.
    Interrupted,
    /// Any other error.
    Broken,
}

/// What an error of the system is to its caller.
pub fn trouble_of(error: io::Error) -> Trouble
    ensures interrupted { error_kind error ≡ ErrorKind.Interrupted → result ≡ Trouble.Interrupted }
    ensures broken { error_kind error ≢ ErrorKind.Interrupted → result ≡ Trouble.Broken }
{
    if error.kind() == ErrorKind::Interrupted {
        Trouble::Interrupted
    } else {
        Trouble::Broken
    }
}

/// A call on what takes bytes, with its answer.
#[derive(Clone, Copy, Debug, PartialEq, Eq)]
pub enum WriteCall {
    /// A write, which took so many bytes.
    Wrote(Result<usize, Trouble>),
    /// What was held back was handed on.
    Flushed(Result<(), Trouble>),
}

/// What bytes go through.
pub trait Passes {
    ghost use Rattle.express_words.specs.Streams.{Stream};

    /// The bytes that its reads gave so far, and those that they will give where these are known, if it tells.
    ghost content: { Self → Option Stream };

    /// The bytes that its writes took so far, if it tells.
    ghost taken: { Self → Option (List ℕ) };
}

/// What gives bytes.
pub trait Reads: Passes {
    ghost use Rattle.express_outside.specs.declared.calls.Trouble.{Trouble};

    /// What its reads answered so far, if it tells.
    ghost answers: { Self → Option (List (Result ℕ Trouble)) };

    /// One read, into the front of `buf`. Ok(0) for a buffer that isn't empty is the end.
    fn read(&mut self, buf: &mut [u8]) -> Result<usize, Trouble>
        ensures bound { IfOk result (λ n. n ≤ length buf.new) }
        ensures gave { IfOk result (λ n. Gave (Self.content self.old) (Self.content self.new) (take n buf.new)) }
        ensures end { IfOk result (λ n. n ≡ 0 → 0 < length buf.old → IsAtEnd (Self.content self.new)) }
        ensures failed { OnErr result (Gave (Self.content self.old) (Self.content self.new) []) }
        ensures takes_nothing { Self.taken self.new ≡ Self.taken self.old }
        ensures told { answers self.new ≡ added result (answers self.old) };
}

/// What takes bytes.
pub trait Writes: Passes {
    ghost use Rattle.express_outside.specs.declared.calls.WriteCall.{WriteCall};
    ghost use Rattle.express_outside.specs.declared.calls.WriteCall.TheVariants.{Wrote, Flushed};

    /// Its calls so far, if it tells.
    ghost calls: { Self → Option (List WriteCall) };

    /// One write, which takes some of the bytes from the front on.
    fn write(&mut self, bytes: &[u8]) -> Result<usize, Trouble>
        ensures bound { IfOk result (λ n. n ≤ length bytes.now) }
        ensures bytes { WriteAppends (Self.taken self.old) (Self.taken self.new) result bytes.now }
        ensures gives_nothing { Self.content self.new ≡ Self.content self.old }
        ensures told { calls self.new ≡ added (Wrote result) (calls self.old) };

    /// Hands on what it holds back.
    fn flush(&mut self) -> Result<(), Trouble>
        ensures bytes { Self.taken self.new ≡ Self.taken self.old }
        ensures gives_nothing { Self.content self.new ≡ Self.content self.old }
        ensures told { calls self.new ≡ added (Flushed result) (calls self.old) };
}

/// A reader, a writer or both of the system, which tells each of its calls, and the bytes that its reads gave and its
/// writes took.
#[derive(Drop)]
pub struct Direct<T> {
    stream: T,
    given: History<u8>,
    answers: History<Result<usize, Trouble>>,
    calls: History<WriteCall>,
    taken: History<u8>,
}

impl<T> Direct<T> {
    /// No call of it was made yet.
    pub fn new(stream: T) -> Self
        ensures { result ≡ record { stream = stream; given = []; answers = []; calls = []; taken = [] } }
    {
        Direct {
            stream,
            given: History::new(),
            answers: History::new(),
            calls: History::new(),
            taken: History::new(),
        }
    }
}

impl<T> Passes for Direct<T> {
    ghost content = { λ d. Some (record { given = d.given; left = None }) };

    ghost taken = { λ d. Some d.taken };
}

impl<T: Read> Reads for Direct<T> {
    ghost answers = { λ d. Some d.answers };

    fn read(&mut self, buf: &mut [u8]) -> Result<usize, Trouble> {
        let answer = self.stream.read(buf).map_err(trouble_of);
        if let Ok(count) = answer {
            self.given.note_bytes(&buf[..count]);
        }
        self.answers.note(&answer);
        answer
    }
}

impl<T: Write> Writes for Direct<T> {
    ghost calls = { λ d. Some d.calls };

    fn write(&mut self, bytes: &[u8]) -> Result<usize, Trouble> {
        let answer = self.stream.write(bytes).map_err(trouble_of);
        if let Ok(count) = answer {
            self.taken.note_bytes(&bytes[..count]);
        }
        self.calls.note(&WriteCall::Wrote(answer));
        answer
    }

    fn flush(&mut self) -> Result<(), Trouble> {
        let answer = self.stream.flush().map_err(trouble_of);
        self.calls.note(&WriteCall::Flushed(answer));
        answer
    }
}
