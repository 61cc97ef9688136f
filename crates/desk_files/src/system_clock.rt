//! The system's clock.
ghost use Rattle.std.specs.Prelude.{◌≡◌};
ghost use Rattle.express_words.specs.Seen.{silent};
ghost use Rattle.express_words.specs.Causes.{HasCause, CountsFault};

use desk_outside::Clock;
use express_words::outside::{Counted, Failed};
use std::io;
use std::time::{SystemTime, UNIX_EPOCH};

/// The clock of the system. Each error, and a time before 1970, is a fault.
#[derive(Drop)]
pub struct SystemClock<'a> {
    rt: &'a HostRuntime,
    faults: u64,
}

impl<'a> SystemClock<'a> {
    /// No call of it has failed yet.
    pub fn new(rt: &'a HostRuntime) -> Self {
        SystemClock { rt, faults: 0 }
    }
}

// The whole seconds since the start of 1970, UTC; none before that.
fn seconds_at(time: SystemTime) -> Option<u64> {
    match time.duration_since(UNIX_EPOCH) {
        Ok(since) => Some(since.as_secs()),
        Err(_) => None,
    }
}

fn seconds_now(rt: &HostRuntime) -> io::Result<Option<u64>> {
    Ok(seconds_at(SystemTime::now(rt)?))
}

impl<'a> Counted for SystemClock<'a> {
    ghost seen = { λ clock. silent clock.faults };

    fn faults(&self) -> u64 {
        self.faults
    }
}

impl<'a> Clock for SystemClock<'a> {
    fn now(&mut self) -> Result<u64, Failed>
        ensures cause { HasCause self.old.faults self.new.faults result }
        ensures counts { CountsFault self.old.faults self.new.faults result }
    {
        match seconds_now(self.rt) {
            Ok(Some(seconds)) => Ok(seconds),
            _ => {
                self.faults = self.faults.saturating_add(1);
                Err(Failed)
            }
        }
    }
}
