//! A connected stream.
ghost use Rattle.std.specs.Prelude.{◌≡◌, ◌≢◌, ◌++◌, ◌≤◌, ◌||◌, Err, length, take, IfOk, OnErr};
ghost use Rattle.std.specs.IoError.{error_kind};
ghost use Rattle.mio_wires.specs.Slots.{new_stream, is_end, is_broken};

use express_outside::History;
use many_words::Door;
use mio::net::TcpStream;
use mio::{Interest, Registry, Token};
use std::io;
use std::io::{ErrorKind, Read, Write};
use std::marker::Model;
use std::net::Shutdown;

/// So many pieces are read and let go of a connection that is closed.
const LAST_PIECES: usize = 4;

/// So many bytes each of them has at most.
const PIECE: usize = 4096;

/// Why a call on a stream moved no bytes.
#[derive(Clone, Copy, Debug, PartialEq, Eq)]
pub enum Halt {
    /// It would wait.
    Blocked,
    /// A signal came first: the call may be made again.
    Interrupted,
    /// Any other error.
    Broken,
}

// What an error of the system is to a connection.
fn halt_of(error: io::Error) -> Halt
    ensures blocked { error_kind error ≡ ErrorKind.WouldBlock → result ≡ Halt.Blocked }
    ensures interrupted { error_kind error ≡ ErrorKind.Interrupted → result ≡ Halt.Interrupted }
    ensures broken { error_kind error ≢ ErrorKind.WouldBlock → error_kind error ≢ ErrorKind.Interrupted
        → result ≡ Halt.Broken }
{
    match error.kind() {
        ErrorKind::WouldBlock => Halt::Blocked,
        ErrorKind::Interrupted => Halt::Interrupted,
        _ => Halt::Broken,
    }
}

/// Has the readiness of a stream reported under the number of a place.
pub fn register_at(stream: &mut TcpStream, registry: &Registry, place: usize) -> io::Result<()> {
    let both = Interest::READABLE | Interest::WRITABLE;
    registry.register(stream, Token(place), both)
}

/// A connected stream that never waits, and the door that it came through. It tells the bytes that its reads
/// gave and its writes took.
#[derive(Drop)]
pub struct Wire {
    door: Door,
    stream: TcpStream,
    given: History<u8>,
    written: History<u8>,
    ended: bool,
    failed: bool,
}

impl Model for Wire {
    ghost use Rattle.mio_wires.specs.Slots.{Stream};

    ghost Value = { Stream };

    ghost view = { λ w. record {
      door = w.door;
      given = w.given;
      written = w.written;
      ended = w.ended;
      failed = w.failed;
    } };
}

impl Wire {
    /// Nothing went through it yet.
    pub fn new(stream: TcpStream, door: Door) -> Wire
        ensures { result ≡ new_stream door }
    {
        Wire {
            door,
            stream,
            given: History::new(),
            written: History::new(),
            ended: false,
            failed: false,
        }
    }

    /// One read, into the front of a buffer. Ok(0) for one that isn't empty is the end.
    pub fn read(&mut self, buf: &mut [u8]) -> Result<usize, Halt>
        ensures length { length buf.new ≡ length buf.old }
        ensures bound { IfOk result (λ n. n ≤ length buf.new) }
        ensures gave { IfOk result (λ n. self.new.given ≡ self.old.given ++ take n buf.new) }
        ensures failed { OnErr result (self.new.given ≡ self.old.given) }
        ensures written { self.new.written ≡ self.old.written }
        ensures door { self.new.door ≡ self.old.door }
        ensures ended { self.new.ended ≡ (self.old.ended || is_end (length buf.old) result) }
        ensures broke { self.new.failed ≡ (self.old.failed || is_broken result) }
    {
        let answer = self.stream.read(buf).map_err(halt_of);
        match answer {
            Ok(count) => {
                self.given.note_bytes(&buf[..count]);
                self.ended = self.ended || !buf.is_empty() && count == 0;
            }
            Err(why) => self.fail(why),
        }
        answer
    }

    // A call moved no bytes for this reason.
    fn fail(&mut self, why: Halt)
        ensures { self.new ≡ record self.old { failed = self.old.failed || is_broken (Err why) } }
    {
        self.failed = self.failed || why == Halt::Broken;
    }

    /// Whether a read found the end.
    pub fn has_ended(&self) -> bool
        ensures { result ≡ self.now.ended }
    {
        self.ended
    }

    /// Whether a call failed for good.
    pub fn has_failed(&self) -> bool
        ensures { result ≡ self.now.failed }
    {
        self.failed
    }

    /// One write, which takes some of the bytes from the front on.
    pub fn write(&mut self, bytes: &[u8]) -> Result<usize, Halt>
        ensures bound { IfOk result (λ n. n ≤ length bytes.now) }
        ensures wrote { IfOk result (λ n. self.new.written ≡ self.old.written ++ take n bytes.now) }
        ensures failed { OnErr result (self.new.written ≡ self.old.written) }
        ensures given { self.new.given ≡ self.old.given }
        ensures door { self.new.door ≡ self.old.door }
        ensures ended { self.new.ended ≡ self.old.ended }
        ensures broke { self.new.failed ≡ (self.old.failed || is_broken result) }
    {
        let answer = self.stream.write(bytes).map_err(halt_of);
        match answer {
            Ok(count) => self.written.note_bytes(&bytes[..count]),
            Err(why) => self.fail(why),
        }
        answer
    }

    /// Ends the writing, and lets some of what came and wasn't read go: where a stream is closed with bytes
    /// unread, the system takes what was written and hasn't arrived back.
    pub fn finish(self) {
        let Wire { mut stream, .. } = self;
        if stream.shutdown(Shutdown::Write).is_err() {
            return;
        }
        let mut piece = [0u8; PIECE];
        for _ in 0..LAST_PIECES {
            match stream.read(&mut piece) {
                Ok(0) | Err(_) => return,
                Ok(_) => {}
            }
        }
    }
}
