//! A sink in memory.
ghost use Rattle.std.specs.Prelude.{◌≡◌, ℕ, ◌-◌, ◌<◌, ◌⊎◌, ◌↔◌, [], ◌++◌, length, None, Some, IfOk, OnOk, OnErr, IsErr};
ghost use Rattle.express_words.specs.Causes.{HasCause, CountsFault};
ghost use Rattle.express_words.specs.Streams.{Took, TookPrefix};
ghost use Rattle.express_words.specs.Seen.{streaming};
ghost use Rattle.express_words.specs.Memory.{SinkState, IsListed, started, sink_failed, sink_took};

use crate::NoMemory;
use crate::outside::buffers::Output;
use crate::outside::call_log::CallLog;
use crate::outside::{Counted, Failed, Sink};
use std::alloc::Global;
use std::marker::Model;

/// Room for bytes that are written, which it tells. The calls whose numbers are listed fail, and so does one
/// whose bytes don't fit; the first call has number 1.
#[derive(Drop)]
pub struct MemorySink {
    output: Output,
    calls: CallLog,
}

impl Model for MemorySink {
    ghost Value = { SinkState };

    ghost view = { λ s. record { written = s.output.0; room = s.output.1; tally = s.calls } };
}

impl MemorySink {
    /// A sink with room for `room` bytes and a copy of `failing`, the numbers of the calls that are to fail.
    pub fn new(alloc: Global, room: usize, failing: &[u64]) -> Result<MemorySink, NoMemory>
        ensures { IfOk result (λ s. s ≡ record { written = []; room = room; tally = started failing.now }) }
    {
        Ok(MemorySink {
            output: Output::new(alloc, room)?,
            calls: CallLog::new(alloc, failing)?,
        })
    }

    /// The bytes written so far.
    pub fn written(&self) -> &[u8]
        ensures { result.now ≡ self.now.written }
    {
        self.output.written()
    }
}

impl Counted for MemorySink {
    ghost seen = { λ s. streaming None (Some s.written) s.tally.faults };

    fn faults(&self) -> u64 {
        self.calls.faults()
    }
}

impl Sink for MemorySink {
    /// Takes all bytes. A call that fails takes none, and changes nothing but the counts.
    fn put(&mut self, bytes: &[u8]) -> Result<(), Failed>
        ensures took { OnOk result (Took (Some self.old.written) (Some self.new.written) bytes.now) }
        ensures failed { OnErr result (TookPrefix (Some self.old.written) (Some self.new.written) bytes.now) }
        ensures cause { HasCause self.old.tally.faults self.new.tally.faults result }
        ensures counts { CountsFault self.old.tally.faults self.new.tally.faults result }
        ensures fails { IsErr result ↔ (IsListed self.old.tally ⊎ (self.old.room < length bytes.now)) }
        ensures after { OnOk result (self.new ≡ sink_took bytes.now self.old) }
        ensures stays { OnErr result (self.new ≡ sink_failed self.old) }
    {
        if self.calls.begin() || !self.output.hold(bytes) {
            self.calls.fail();
            return Err(Failed);
        }
        Ok(())
    }
}
