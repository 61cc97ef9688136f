//! A source in memory.
ghost use Rattle.std.specs.Prelude.{◌≡◌, ℕ, ◌<◌, ◌≤◌, ◌↔◌, min, [], ◌++◌, length, take, drop, None, Some, IfOk, OnErr, IsErr};
ghost use Rattle.express_words.specs.Causes.{HasCause, CountsFault};
ghost use Rattle.express_words.specs.Streams.{Gave, IsAtEnd};
ghost use Rattle.express_words.specs.Seen.{streaming};
ghost use Rattle.express_words.specs.Memory.{SourceState, IsListed, started, advanced, passed, failed, shown};

use crate::NoMemory;
use crate::outside::buffers::Input;
use crate::outside::call_log::CallLog;
use crate::outside::{Counted, Failed, Source};
use std::alloc::Global;
use std::marker::Model;

/// Bytes to be read, which it tells. The calls whose numbers are listed fail; the first call has number 1.
#[derive(Drop)]
pub struct MemorySource {
    input: Input,
    calls: CallLog,
}

impl Model for MemorySource {
    ghost Value = { SourceState };

    ghost view = { λ s. record { content = s.input; tally = s.calls } };
}

impl MemorySource {
    /// A source of copies of `bytes` and of `failing`, the numbers of the calls that are to fail.
    pub fn new(alloc: Global, bytes: &[u8], failing: &[u64]) -> Result<MemorySource, NoMemory>
        ensures { IfOk result
            (λ s. s ≡ record { content = record { given = []; left = bytes.now }; tally = started failing.now }) }
    {
        Ok(MemorySource {
            input: Input::new(alloc, bytes)?,
            calls: CallLog::new(alloc, failing)?,
        })
    }
}

impl Counted for MemorySource {
    ghost seen = { λ s. streaming (Some (shown s.content)) None s.tally.faults };

    fn faults(&self) -> u64 {
        self.calls.faults()
    }
}

impl Source for MemorySource {
    /// Gives as many bytes as are left and fit. A call that fails changes nothing but the counts.
    fn take(&mut self, buf: &mut [u8]) -> Result<usize, Failed>
        ensures bound { IfOk result (λ n. n ≤ length buf.new) }
        ensures gave { IfOk result (λ n. Gave (Some (shown self.old.content)) (Some (shown self.new.content))
            (take n buf.new)) }
        ensures end { IfOk result (λ n. n ≡ 0 → 0 < length buf.old → IsAtEnd (Some (shown self.new.content))) }
        ensures failed { OnErr result (Gave (Some (shown self.old.content)) (Some (shown self.new.content)) []) }
        ensures cause { HasCause self.old.tally.faults self.new.tally.faults result }
        ensures counts { CountsFault self.old.tally.faults self.new.tally.faults result }
        ensures fails { IsErr result ↔ IsListed self.old.tally }
        ensures amount { IfOk result (λ n. n ≡ min (length self.old.content.left) (length buf.old)) }
        ensures copied { IfOk result (λ n. buf.new ≡ take n self.old.content.left ++ drop n buf.old) }
        ensures after { IfOk result
            (λ n. self.new ≡ record { content = advanced n self.old.content; tally = passed self.old.tally }) }
        ensures stays { OnErr result
            ((self.new ≡ record { content = self.old.content; tally = failed self.old.tally })
            × (buf.new ≡ buf.old)) }
    {
        if self.calls.begin() {
            self.calls.fail();
            return Err(Failed);
        }
        Ok(self.input.give(buf))
    }
}
