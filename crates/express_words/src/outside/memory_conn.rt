//! A connection in memory.
ghost use Rattle.std.specs.Prelude.{◌≡◌, ℕ, ◌-◌, ◌<◌, ◌≤◌, ◌⊎◌, ◌↔◌, min, [], ◌++◌, length, take, drop, Some, IfOk, OnOk, OnErr, IsErr};
ghost use Rattle.express_words.specs.Causes.{HasCause, CountsFault};
ghost use Rattle.express_words.specs.Streams.{Gave, IsAtEnd, Took, TookPrefix};
ghost use Rattle.express_words.specs.Seen.{streaming};
ghost use Rattle.express_words.specs.Memory.{ConnState, IsListed, started, conn_failed, conn_gave, conn_took, fresh, shown};

use crate::NoMemory;
use crate::outside::buffers::{Input, Output};
use crate::outside::call_log::CallLog;
use crate::outside::{Conn, Counted, Failed, Sink, Source};
use std::alloc::Global;
use std::marker::Model;

/// Bytes to be read and room for bytes that are written, both of which it tells. Reads and writes are numbered
/// together, from 1. The calls whose numbers are listed fail, and so does a write whose bytes don't fit.
#[derive(Drop)]
pub struct MemoryConn {
    input: Input,
    output: Output,
    calls: CallLog,
}

impl Model for MemoryConn {
    ghost Value = { ConnState };

    ghost view = { λ c. record { content = c.input; written = c.output.0; room = c.output.1; tally = c.calls } };
}

impl MemoryConn {
    /// A connection that gives copies of `bytes`, with room for `room` bytes and a copy of `failing`, the numbers
    /// of the calls that are to fail.
    pub fn new(
        alloc: Global,
        bytes: &[u8],
        room: usize,
        failing: &[u64],
    ) -> Result<MemoryConn, NoMemory>
        ensures { IfOk result
            (λ c. c ≡ record { content = record { given = []; left = bytes.now }; written = []; room = room; tally = started failing.now }) }
    {
        Ok(MemoryConn {
            input: Input::new(alloc, bytes)?,
            output: Output::new(alloc, room)?,
            calls: CallLog::new(alloc, failing)?,
        })
    }

    /// The bytes given so far.
    pub fn given(&self) -> &[u8]
        ensures { result.now ≡ self.now.content.given }
    {
        self.input.given()
    }

    /// The bytes written so far.
    pub fn written(&self) -> &[u8]
        ensures { result.now ≡ self.now.written }
    {
        self.output.written()
    }

    /// As it was when it was made.
    pub fn restart(&mut self)
        ensures { self.new ≡ fresh self.old }
    {
        self.input.restart();
        self.output.restart();
        self.calls.restart();
    }
}

impl Counted for MemoryConn {
    ghost seen = { λ c. streaming (Some (shown c.content)) (Some c.written) c.tally.faults };

    fn faults(&self) -> u64 {
        self.calls.faults()
    }
}

impl Source for MemoryConn {
    /// Gives as many bytes as are left and fit. A call that fails changes nothing but the counts.
    fn take(&mut self, buf: &mut [u8]) -> Result<usize, Failed>
        ensures bound { IfOk result (λ n. n ≤ length buf.new) }
        ensures gave { IfOk result (λ n. Gave (Some (shown self.old.content)) (Some (shown self.new.content))
            (take n buf.new)) }
        ensures end { IfOk result (λ n. n ≡ 0 → 0 < length buf.old → IsAtEnd (Some (shown self.new.content))) }
        ensures failed { OnErr result (Gave (Some (shown self.old.content)) (Some (shown self.new.content)) []) }
        ensures writes_nothing { self.new.written ≡ self.old.written }
        ensures cause { HasCause self.old.tally.faults self.new.tally.faults result }
        ensures counts { CountsFault self.old.tally.faults self.new.tally.faults result }
        ensures fails { IsErr result ↔ IsListed self.old.tally }
        ensures amount { IfOk result (λ n. n ≡ min (length self.old.content.left) (length buf.old)) }
        ensures copied { IfOk result (λ n. buf.new ≡ take n self.old.content.left ++ drop n buf.old) }
        ensures after { IfOk result (λ n. self.new ≡ conn_gave n self.old) }
        ensures stays { OnErr result ((self.new ≡ conn_failed self.old) × (buf.new ≡ buf.old)) }
    {
        if self.calls.begin() {
            self.calls.fail();
            return Err(Failed);
        }
        Ok(self.input.give(buf))
    }
}

impl Sink for MemoryConn {
    /// Takes all bytes. A call that fails takes none, and changes nothing but the counts.
    fn put(&mut self, bytes: &[u8]) -> Result<(), Failed>
        ensures took { OnOk result (Took (Some self.old.written) (Some self.new.written) bytes.now) }
        ensures failed { OnErr result (TookPrefix (Some self.old.written) (Some self.new.written) bytes.now) }
        ensures gives_nothing { self.new.content ≡ self.old.content }
        ensures cause { HasCause self.old.tally.faults self.new.tally.faults result }
        ensures counts { CountsFault self.old.tally.faults self.new.tally.faults result }
        ensures fails { IsErr result ↔ (IsListed self.old.tally ⊎ (self.old.room < length bytes.now)) }
        ensures after { OnOk result (self.new ≡ conn_took bytes.now self.old) }
        ensures stays { OnErr result (self.new ≡ conn_failed self.old) }
    {
        if self.calls.begin() || !self.output.hold(bytes) {
            self.calls.fail();
            return Err(Failed);
        }
        Ok(())
    }
}

impl Conn for MemoryConn {}
