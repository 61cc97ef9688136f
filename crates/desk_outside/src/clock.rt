//! A clock.
ghost use Rattle.std.specs.Prelude.{◌≡◌};
ghost use Rattle.express_words.specs.Causes.{HasCause, CountsFault};

use express_words::outside::{Counted, Failed};

/// Tells the time, with a count of its faults.
pub trait Clock: Counted {
    /// The seconds since the start of 1970, UTC.
    fn now(&mut self) -> Result<u64, Failed>
        ensures cause { HasCause (Self.seen self.old).faults (Self.seen self.new).faults result }
        ensures counts { CountsFault (Self.seen self.old).faults (Self.seen self.new).faults result };
}
