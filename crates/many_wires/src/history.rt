//! What was noted so far, which only proofs read.
ghost use Rattle.std.specs.Prelude.{◌≡◌, [], ◌∷◌, ◌++◌};

use http_server::Log;
use std::marker::Model;

/// A list of what was noted. It takes no memory, and its calls do nothing at run time.
#[derive(Drop)]
pub(crate) struct History<A> {
    log: Log<A, ()>,
}

impl<A> Model for History<A> {
    ghost use Rattle.std.specs.Prelude.{List, map};

    ghost Value = { List A };

    ghost view = { λ h. map (λ noted. noted.0) h.log.items };
}

impl<A> History<A> {
    /// Nothing was noted yet.
    pub(crate) fn new() -> History<A>
        ensures { result ≡ [] }
    {
        History { log: Log::new() }
    }

    /// Notes one more.
    pub(crate) fn note(&mut self, item: &A)
        ensures { self.new ≡ self.old ++ item.now ∷ [] }
    {
        self.log = self.log.and(item, &());
    }
}

/// These bytes, one after another.
pub(crate) fn noted_bytes(bytes: &[u8]) -> History<u8>
    ensures { result ≡ bytes.now }
{
    let mut noted = History::new();
    for byte in bytes {
        noted.note(byte);
    }
    noted
}
