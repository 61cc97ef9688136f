//! The replies to the commands that were carried out last.
ghost use Rattle.std.specs.Prelude.{◌≡◌, ◌+◌, ◌-◌, ◌<◌, ◌≤◌, ◌^◌, IfOk, [], ◌∷◌, ◌++◌, length, drop};
ghost use Rattle.link_order.specs.Link.{IsCarried, none_carried, with_carried};

use crate::frame_ring::FrameRing;
use express_words::NoMemory;
use std::alloc::Global;
use std::marker::Model;

/// Where the number of a command that arrived stands.
#[derive(Clone, Copy, Debug, PartialEq, Eq)]
pub enum Arrival<'a> {
    /// It is the next one to be carried out.
    Next,
    /// It was carried out, and this is its reply.
    Kept(&'a [u8]),
    /// It is neither.
    Passed,
}

/// Commands that were carried out in the order of their numbers from 1 upwards, with the replies to the last
/// ones.
#[derive(Drop)]
pub struct Incoming {
    ring: FrameRing,
}

impl Model for Incoming {
    ghost use Rattle.link_order.specs.Link.{Carried, IsCarried};
    ghost use Rattle.link_order.specs.Ring.{carried_in};

    ghost Value = { Carried };

    ghost view = { λ i. carried_in i.ring };

    ghost invariant = { λ i. IsCarried (carried_in i.ring) };
}

impl Incoming {
    ghost use Rattle.link_order.specs.Arrivals.{IfKept, IsArrival};

    /// A link with no command carried out, that keeps the last `window` replies of at most `size` bytes each.
    pub fn open(alloc: Global, window: u8, size: u32) -> Result<Incoming, NoMemory>
        requires window { (1 ≤ window) × (window ≤ 32) }
        ensures opened { IfOk result (λ link. link ≡ none_carried window size) }
        ensures link { IfOk result IsCarried }
    {
        Ok(Incoming {
            ring: FrameRing::open(alloc, window, size)?,
        })
    }

    /// Whether a command of this number is to be carried out now, was carried out and its reply is kept, or
    /// neither.
    pub fn arrival(&self, number: u64) -> Arrival<'_>
        ensures which { IsArrival self.now number result }
        ensures room { IfKept result (λ reply. length reply ≤ self.now.size) }
        ensures link { IsCarried self.now }
    {
        let carried = self.ring.pushed();
        let oldest = carried - self.ring.len() as u64;
        if number > carried {
            return if number - carried == 1 {
                Arrival::Next
            } else {
                Arrival::Passed
            };
        }
        if number <= oldest {
            return Arrival::Passed;
        }
        Arrival::Kept(self.ring.get((number - oldest - 1) as usize))
    }

    /// Makes the next number carried, with this reply.
    pub fn carry(&mut self, reply: &[u8])
        requires fits { length reply.now ≤ self.old.size }
        requires countable { self.old.carried < 2 ^ 64 - 1 }
        ensures carried { self.new ≡ with_carried self.old reply.now }
        ensures grows { length self.old.replies < self.old.window
            → self.new.replies ≡ self.old.replies ++ reply.now ∷ [] }
        ensures turns { length self.old.replies ≡ self.old.window
            → self.new.replies ≡ drop 1 self.old.replies ++ reply.now ∷ [] }
        ensures link { IsCarried self.new }
    {
        self.ring.push(reply);
    }
}
