//! What gives bytes, takes them, or both, as sources, sinks and connections with a count of their faults.
ghost use Rattle.std.specs.Prelude.{◌≡◌, ◌<◌, ◌≤◌, [], length, take, Ok, IfOk, OnOk, OnErr, MatchBool, MatchResult};
ghost use Rattle.std.specs.Io.KnownBytes.{WriteAppends};
ghost use Rattle.express_words.specs.Seen.{streaming};
ghost use Rattle.express_words.specs.Streams.{Gave, IsAtEnd, Took, TookPrefix};
ghost use Rattle.express_words.specs.Causes.{HasCause, CountsFault};
ghost use Rattle.express_outside.specs.Calls.{EndedBy};
ghost use Rattle.express_outside.specs.declared.calls.WriteCall.TheVariants.{Wrote};
ghost use Rattle.express_outside.specs.Answers.{TookIfWhole};
ghost use Rattle.express_outside.specs.Answers.{EndedByFlush, EndedByRefusal, EndedByTrouble};

use crate::calls::{Passes, Reads, Trouble, Writes};
use express_words::outside::{Conn, Counted, Failed, Sink, Source};

/// So many times a call is made while each is interrupted.
const MOST_TRIES: u32 = 1000;

/// What gives bytes, takes them, or both. Each error is a fault but an interruption, after which the call is
/// made again, and so is a write that takes nothing.
///
/// It tells the bytes that the reads below gave and the writes below took. Over an object that tells its calls the
/// clauses `ended` say which of them was the last, with its answer.
#[derive(Drop)]
pub struct Adapter<T> {
    inner: T,
    faults: u64,
}

impl<T> Adapter<T> {
    /// No call of it has failed yet.
    pub fn new(inner: T) -> Self
        ensures { result ≡ record { inner = inner; faults = 0 } }
    {
        Adapter { inner, faults: 0 }
    }
}

impl<T: Passes> Counted for Adapter<T> {
    ghost seen = { λ a. streaming (T.content a.inner) (T.taken a.inner) a.faults };

    fn faults(&self) -> u64 {
        self.faults
    }
}

// A read that is made again where it was interrupted.
fn read_again<T: Reads>(inner: &mut T, buf: &mut [u8]) -> Result<usize, Trouble>
    ensures bound { IfOk result (λ n. n ≤ length buf.new) }
    ensures gave { IfOk result (λ n. Gave (T.content inner.old) (T.content inner.new) (take n buf.new)) }
    ensures end { IfOk result (λ n. n ≡ 0 → 0 < length buf.old → IsAtEnd (T.content inner.new)) }
    ensures failed { OnErr result (Gave (T.content inner.old) (T.content inner.new) []) }
    ensures takes_nothing { T.taken inner.new ≡ T.taken inner.old }
    ensures ended { EndedBy (T.answers inner.new) result }
{
    for _ in 1..MOST_TRIES {
        match inner.read(buf) {
            Ok(count) => return Ok(count),
            Err(Trouble::Broken) => return Err(Trouble::Broken),
            Err(Trouble::Interrupted) => {}
        }
    }
    inner.read(buf)
}

impl<T: Reads> Source for Adapter<T> {
    fn take(&mut self, buf: &mut [u8]) -> Result<usize, Failed>
        ensures bound { IfOk result (λ n. n ≤ length buf.new) }
        ensures gave { IfOk result (λ n. Gave (T.content self.old.inner) (T.content self.new.inner)
            (take n buf.new)) }
        ensures end { IfOk result (λ n. n ≡ 0 → 0 < length buf.old → IsAtEnd (T.content self.new.inner)) }
        ensures failed { OnErr result (Gave (T.content self.old.inner) (T.content self.new.inner) []) }
        ensures writes_nothing { T.taken self.new.inner ≡ T.taken self.old.inner }
        ensures ended { MatchResult result (λ n. EndedBy (T.answers self.new.inner) (Ok n))
            (λ _. EndedByTrouble (T.answers self.new.inner)) }
        ensures cause { HasCause self.old.faults self.new.faults result }
        ensures counts { CountsFault self.old.faults self.new.faults result }
    {
        match read_again(&mut self.inner, buf) {
            Ok(count) => Ok(count),
            Err(_) => {
                self.faults = self.faults.saturating_add(1);
                Err(Failed)
            }
        }
    }
}

// A write that is made again where it was interrupted.
fn write_again<T: Writes>(inner: &mut T, bytes: &[u8]) -> Result<usize, Trouble>
    ensures bound { IfOk result (λ n. n ≤ length bytes.now) }
    ensures bytes { WriteAppends (T.taken inner.old) (T.taken inner.new) result bytes.now }
    ensures gives_nothing { T.content inner.new ≡ T.content inner.old }
    ensures ended { EndedBy (T.calls inner.new) (Wrote result) }
{
    for _ in 1..MOST_TRIES {
        match inner.write(bytes) {
            Ok(count) => return Ok(count),
            Err(Trouble::Broken) => return Err(Trouble::Broken),
            Err(Trouble::Interrupted) => {}
        }
    }
    inner.write(bytes)
}

// Writes all of the bytes and hands them on, and says whether that went well.
fn write_whole<T: Writes>(inner: &mut T, bytes: &[u8]) -> bool
    ensures bytes { TookIfWhole result (T.taken inner.old) (T.taken inner.new) bytes.now }
    ensures gives_nothing { T.content inner.new ≡ T.content inner.old }
    ensures ended { MatchBool result (EndedByFlush (T.calls inner.new))
        (EndedByRefusal (T.calls inner.new)) }
{
    let mut done = 0;
    'writing: while done < bytes.len() {
        match write_again(inner, &bytes[done..]) {
            Err(_) | Ok(0) => return false,
            Ok(count) => done += count,
        }
    }
    inner.flush().is_ok()
}

impl<T: Writes> Sink for Adapter<T> {
    fn put(&mut self, bytes: &[u8]) -> Result<(), Failed>
        ensures took { OnOk result (Took (T.taken self.old.inner) (T.taken self.new.inner) bytes.now) }
        ensures failed { OnErr result (TookPrefix (T.taken self.old.inner) (T.taken self.new.inner) bytes.now) }
        ensures gives_nothing { T.content self.new.inner ≡ T.content self.old.inner }
        ensures ended { MatchResult result (λ _. EndedByFlush (T.calls self.new.inner))
            (λ _. EndedByRefusal (T.calls self.new.inner)) }
        ensures cause { HasCause self.old.faults self.new.faults result }
        ensures counts { CountsFault self.old.faults self.new.faults result }
    {
        if write_whole(&mut self.inner, bytes) {
            Ok(())
        } else {
            self.faults = self.faults.saturating_add(1);
            Err(Failed)
        }
    }
}

impl<T: Reads + Writes> Conn for Adapter<T> {}
