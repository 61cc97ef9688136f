//! The commands that wait for their replies.
ghost use Rattle.std.specs.Prelude.{◌≡◌, ◌+◌, ◌-◌, ◌<◌, ◌≤◌, ◌^◌, ◌↔◌, [], length, slice_get};
ghost use Rattle.std.specs.Prelude.{IsTrue, IsErr, IsNone, IsSome, OnOk, OnErr, IfOk, IfErr, IfSome, Some};
ghost use Rattle.std.specs.Bool.{OnTrue, OnFalse};
ghost use Rattle.link_order.specs.Link.{IsOldest, IsOutstanding, none_issued, with_issued, with_removed};

use crate::frame_ring::FrameRing;
use express_words::NoMemory;
use std::alloc::Global;
use std::marker::Model;

/// Commands with numbers from 1 upwards, each kept until it is acknowledged.
#[derive(Drop)]
pub struct Outgoing {
    ring: FrameRing,
}

impl Model for Outgoing {
    ghost use Rattle.std.specs.Prelude.{◌+◌, ◌<◌, ◌^◌};
    ghost use Rattle.link_order.specs.Link.{Outstanding, IsOutstanding};
    ghost use Rattle.link_order.specs.Ring.{outstanding_in};

    ghost Value = { Outstanding };

    ghost view = { λ o. outstanding_in o.ring };

    ghost invariant = { λ o. (o.ring.pushed + 1 < 2 ^ 64) × IsOutstanding (outstanding_in o.ring) };
}

impl Outgoing {
    /// A link with no command issued, of which at most `window` may be outstanding, each of at most `size`
    /// bytes.
    pub fn open(alloc: Global, window: u8, size: u32) -> Result<Outgoing, NoMemory>
        requires window { (1 ≤ window) × (window ≤ 32) }
        ensures opened { IfOk result (λ link. link ≡ none_issued window size) }
        ensures link { IfOk result IsOutstanding }
    {
        Ok(Outgoing {
            ring: FrameRing::open(alloc, window, size)?,
        })
    }

    /// How many commands are outstanding.
    pub fn len(&self) -> usize
        ensures count { result ≡ length self.now.frames }
        ensures link { IsOutstanding self.now }
    {
        self.ring.len()
    }

    /// The number that the next command gets.
    pub fn next(&self) -> u64
        ensures number { result ≡ self.now.next }
        ensures link { IsOutstanding self.now }
    {
        self.ring.pushed() + 1
    }

    /// Issues a command and gives its number; or, exactly where `window` commands are outstanding, changes
    /// nothing and gives the oldest one's number.
    pub fn issue(&mut self, frame: &[u8]) -> Result<u64, u64>
        requires fits { length frame.now ≤ self.old.size }
        requires countable { self.old.next < 2 ^ 64 - 1 }
        ensures full { IsErr result ↔ (length self.old.frames ≡ self.old.window) }
        ensures oldest { IfErr result (IsOldest self.old) }
        ensures stays { OnErr result (self.new ≡ self.old) }
        ensures number { IfOk result (λ number. number ≡ self.old.next) }
        ensures issued { OnOk result (self.new ≡ with_issued self.old frame.now) }
        ensures link { IsOutstanding self.new }
    {
        if self.ring.is_full() {
            return Err(self.oldest_number());
        }
        let number = self.next();
        self.ring.push(frame);
        Ok(number)
    }

    /// The outstanding command at this place, the oldest at 0, with its number; None exactly where no more than `place` are
    /// outstanding.
    pub fn at(&self, place: usize) -> Option<(u64, &[u8])>
        ensures none { IsNone result ↔ (length self.now.frames ≤ place) }
        ensures number { IfSome result (λ command. command.0 + length self.now.frames ≡ self.now.next + place) }
        ensures frame { IfSome result (λ command. slice_get self.now.frames place ≡ Some command.1.now) }
        ensures room { IfSome result (λ command. length command.1.now ≤ self.now.size) }
        ensures link { IsOutstanding self.now }
    {
        if self.ring.len() <= place {
            return None;
        }
        Some((self.oldest_number() + place as u64, self.ring.get(place)))
    }

    /// The oldest outstanding command with its number, or None exactly where none is outstanding.
    pub fn oldest(&self) -> Option<(u64, &[u8])>
        ensures none { IsNone result ↔ (self.now.frames ≡ []) }
        ensures number { IfSome result (λ command. IsOldest self.now command.0) }
        ensures frame { IfSome result (λ command. slice_get self.now.frames 0 ≡ Some command.1.now) }
        ensures room { IfSome result (λ command. length command.1.now ≤ self.now.size) }
        ensures link { IsOutstanding self.now }
    {
        self.at(0)
    }

    /// The oldest outstanding command's number, exactly where `window` commands are outstanding.
    pub fn full(&self) -> Option<u64>
        ensures full { IsSome result ↔ (length self.now.frames ≡ self.now.window) }
        ensures oldest { IfSome result (IsOldest self.now) }
        ensures link { IsOutstanding self.now }
    {
        let is_full = self.ring.is_full();
        if is_full {
            Some(self.oldest_number())
        } else {
            None
        }
    }

    /// Removes the oldest outstanding command if this is its number, and says whether it is.
    pub fn acknowledge(&mut self, number: u64) -> bool
        ensures oldest { IsTrue result ↔ IsOldest self.old number }
        ensures removed { OnTrue result (self.new ≡ with_removed self.old) }
        ensures stays { OnFalse result (self.new ≡ self.old) }
        ensures link { IsOutstanding self.new }
    {
        if self.ring.len() == 0 || number != self.oldest_number() {
            return false;
        }
        self.ring.pop();
        true
    }

    fn oldest_number(&self) -> u64
        ensures { result + length self.now.frames ≡ self.now.next }
    {
        self.ring.pushed() + 1 - self.ring.len() as u64
    }
}
