//! Sockets whose calls end in time, by the clock.
ghost use Rattle.std.specs.Prelude.{◌≡◌, ◌≤◌, ◌<◌, ℕ, List, [], ◌++◌, length, take, Option, None, Some, IfOk, OnErr, IfSome};
ghost use Rattle.std.specs.Duration.{as_nanos};
ghost use Rattle.std.specs.Io.KnownBytes.{WriteAppends};
ghost use Rattle.express_words.specs.Streams.{Gave};
ghost use Rattle.express_outside.specs.Calls.{added, told};
ghost use Rattle.express_outside.specs.declared.patience.SocketCall.TheVariants.{ReadWithin, WroteWithin};
ghost use Rattle.express_outside.specs.Patience.{IsWithin};
ghost use Rattle.express_outside.specs.Patience.{IsLimit, begin_at, left_of, seconds};

use crate::calls::{Passes, Reads, Trouble, Writes};
use std::time::{Duration, Instant};

/// So many seconds an accepted connection has, from its accept on, for all that is read of it, and as many,
/// from its first write on, for all that is written.
const PATIENCE_WITH_CLIENTS: u64 = 10;

/// So many seconds a dialled connection has for all that is read and written. Its peer may first have to lose
/// its patience with others.
const PATIENCE_WITH_SERVERS: u64 = 60;

/// So much time something has from when it begins.
#[derive(Clone, Copy)]
pub struct Limit {
    began: Option<Instant>,
    allowed: Duration,
}

impl Limit {
    /// So many seconds from this moment on.
    pub fn from(began: Instant, secs: u64) -> Limit
        ensures began { result.began ≡ Some began }
        ensures allowed { as_nanos result.allowed ≡ seconds secs }
    {
        Limit {
            began: Some(began),
            allowed: Duration::from_secs(secs),
        }
    }

    /// So many seconds from when they are first asked for.
    pub fn of(secs: u64) -> Limit
        ensures began { result.began ≡ None }
        ensures allowed { as_nanos result.allowed ≡ seconds secs }
    {
        Limit {
            began: None,
            allowed: Duration::from_secs(secs),
        }
    }

    /// What is left at this moment, if there is any. A limit that hasn't begun begins.
    pub fn left_at(&mut self, now: Instant) -> Option<Duration>
        ensures begun { self.new.began ≡ Some (begin_at now self.old.began) }
        ensures same { self.new.allowed ≡ self.old.allowed }
        ensures left { IfSome result (λ left. (as_nanos left ≡ left_of self.old now) × (0 < as_nanos left)) }
        ensures over { result ≡ None → left_of self.old now ≡ 0 }
    {
        let began = self.began.unwrap_or(now);
        self.began = Some(began);
        let left = self.allowed.saturating_sub(now.duration_since(began));
        if left.is_zero() { None } else { Some(left) }
    }
}

/// A call on a socket.
#[derive(Clone, Copy)]
pub enum SocketCall {
    /// A look at the clock, which told this time.
    Told(Instant),
    /// A read that may wait so long, with its answer.
    ReadWithin(Duration, Result<usize, Trouble>),
    /// A write that may wait so long, with its answer.
    WroteWithin(Duration, Result<usize, Trouble>),
}

/// The system's calls on a connected socket and on its clock.
pub trait Socket {
    ghost use Rattle.express_outside.specs.declared.patience.SocketCall.{SocketCall};
    ghost use Rattle.express_outside.specs.declared.patience.SocketCall.TheVariants.{Told, ReadWithin, WroteWithin};

    /// The bytes that its reads gave so far.
    ghost given: { Self → List ℕ };

    /// The bytes that its writes took so far.
    ghost taken: { Self → List ℕ };

    /// Its calls so far, if it tells.
    ghost calls: { Self → Option (List SocketCall) };

    /// What the clock says.
    fn now(&mut self) -> Result<Instant, Trouble>
        ensures passes_nothing { (given self.new ≡ given self.old) × (taken self.new ≡ taken self.old) }
        ensures told { IfOk result (λ now. calls self.new ≡ added (Told now) (calls self.old)) };

    /// One read, which fails where no byte comes for so long.
    fn read_within(&mut self, left: Duration, buf: &mut [u8]) -> Result<usize, Trouble>
        requires { 0 < as_nanos left }
        ensures bound { IfOk result (λ n. n ≤ length buf.new) }
        ensures gave { IfOk result (λ n. given self.new ≡ given self.old ++ take n buf.new) }
        ensures failed { OnErr result (given self.new ≡ given self.old) }
        ensures takes_nothing { taken self.new ≡ taken self.old }
        ensures told { calls self.new ≡ added (ReadWithin left result) (calls self.old) };

    /// One write, which fails where nothing is taken for so long.
    fn write_within(&mut self, left: Duration, bytes: &[u8]) -> Result<usize, Trouble>
        requires { 0 < as_nanos left }
        ensures bound { IfOk result (λ n. n ≤ length bytes.now) }
        ensures took { IfOk result (λ n. taken self.new ≡ taken self.old ++ take n bytes.now) }
        ensures failed { OnErr result (taken self.new ≡ taken self.old) }
        ensures gives_nothing { given self.new ≡ given self.old }
        ensures told { calls self.new ≡ added (WroteWithin left result) (calls self.old) };
}

/// A socket with a limit on all that is read of it and one on all that is written.
#[derive(Drop)]
pub struct Timed<S> {
    socket: S,
    reading: Limit,
    writing: Limit,
}

impl<S> Timed<S> {
    /// A connection that was accepted at this moment, with so many seconds from then on for all that is read,
    /// and as many from the first write on for all that is written.
    pub fn accepted_for(socket: S, at: Instant, secs: u64) -> Self
        ensures socket { result.socket ≡ socket }
        ensures reading { IsLimit result.reading (Some at) secs }
        ensures writing { IsLimit result.writing None secs }
    {
        Timed {
            socket,
            reading: Limit::from(at, secs),
            writing: Limit::of(secs),
        }
    }

    /// A connection that was accepted at this moment.
    pub fn accepted(socket: S, at: Instant) -> Self
        ensures socket { result.socket ≡ socket }
        ensures reading { IsLimit result.reading (Some at) 10 }
        ensures writing { IsLimit result.writing None 10 }
    {
        Timed::accepted_for(socket, at, PATIENCE_WITH_CLIENTS)
    }

    /// A connection with so many seconds from this moment on for all that is read and written.
    pub fn lasting(socket: S, at: Instant, secs: u64) -> Self
        ensures socket { result.socket ≡ socket }
        ensures began { result.reading.began ≡ Some at }
        ensures allowed { as_nanos result.reading.allowed ≡ seconds secs }
        ensures one_limit { result.writing ≡ result.reading }
    {
        let limit = Limit::from(at, secs);
        Timed {
            socket,
            reading: limit,
            writing: limit,
        }
    }

    /// A connection that was dialled at this moment.
    pub fn dialled(socket: S, at: Instant) -> Self
        ensures socket { result.socket ≡ socket }
        ensures began { result.reading.began ≡ Some at }
        ensures allowed { as_nanos result.reading.allowed ≡ seconds 60 }
        ensures one_limit { result.writing ≡ result.reading }
    {
        Timed::lasting(socket, at, PATIENCE_WITH_SERVERS)
    }
}

impl<S: Socket> Passes for Timed<S> {
    ghost content = { λ timed. told (S.given timed.socket) };

    ghost taken = { λ timed. Some (S.taken timed.socket) };
}

// It tells none of its answers: the clauses `within` say which calls on the socket they came of.
impl<S: Socket> Reads for Timed<S> {
    ghost answers = { λ _. None };

    fn read(&mut self, buf: &mut [u8]) -> Result<usize, Trouble>
        ensures bound { IfOk result (λ n. n ≤ length buf.new) }
        ensures gave { IfOk result (λ n. Gave (told (S.given self.old.socket)) (told (S.given self.new.socket))
            (take n buf.new)) }
        ensures failed { OnErr result (Gave (told (S.given self.old.socket)) (told (S.given self.new.socket)) []) }
        ensures takes_nothing { S.taken self.new.socket ≡ S.taken self.old.socket }
        ensures within { IfOk result (λ n. IsWithin ReadWithin self.old.reading (S.calls self.old.socket)
            (S.calls self.new.socket) result) }
    {
        let now = self.socket.now()?;
        match self.reading.left_at(now) {
            Some(left) => self.socket.read_within(left, buf),
            None => Err(Trouble::Broken),
        }
    }
}

impl<S: Socket> Writes for Timed<S> {
    ghost calls = { λ _. None };

    fn write(&mut self, bytes: &[u8]) -> Result<usize, Trouble>
        ensures bound { IfOk result (λ n. n ≤ length bytes.now) }
        ensures bytes { WriteAppends (Some (S.taken self.old.socket)) (Some (S.taken self.new.socket)) result bytes.now }
        ensures gives_nothing { S.given self.new.socket ≡ S.given self.old.socket }
        ensures within { IfOk result (λ n. IsWithin WroteWithin self.old.writing
            (S.calls self.old.socket)
            (S.calls self.new.socket) result) }
    {
        let now = self.socket.now()?;
        match self.writing.left_at(now) {
            Some(left) => self.socket.write_within(left, bytes),
            None => Err(Trouble::Broken),
        }
    }

    fn flush(&mut self) -> Result<(), Trouble> {
        Ok(())
    }
}
