//! The commands that wait for their replies, each with what it orders.
ghost use Rattle.std.specs.Prelude.{◌≡◌, ◌+◌, ◌-◌, ◌^◌, ◌<◌, ◌≤◌, ◌↔◌, IfOk, IfSome, IsNone, IsSome, Some, [], true, drop, length, slice_get};
ghost use Rattle.frame_rules.specs.Frames.{plain_body};
ghost use Rattle.frame_rules.specs.Kinds.{is_linked};
ghost use Rattle.frame_rules.specs.Spelling.{kind_of, spelling, IsBody, IsFrame};
ghost use Rattle.frame_rules.specs.Room.{HasRoom};
ghost use Rattle.link_order.specs.Link.{none_issued, IsOldest, IsOutstanding};
ghost use Rattle.leader_core.specs.Commands.{first_of, frame_for, with_command, IsIssued};
ghost use Rattle.leader_core.specs.Told.{WritesFront};

use crate::issued::{Issued, order_in};
use circular_buffer::HeapCircularBuffer;
use express_words::NoMemory;
use frame_rules::{Body, FRAME_MAX, Frame};
use link_order::Outgoing;
use std::alloc::Global;
use std::marker::Model;
use wire_frames::encode_into;

/// The commands that were issued and not answered, oldest first: their bytes, and beside each what it orders, so that
/// no bytes are read again.
#[derive(Drop)]
pub(crate) struct Commands {
    link: Outgoing,
    issued: HeapCircularBuffer<Issued>,
}

impl Model for Commands {
    ghost use Rattle.link_order.specs.Link.{Outstanding};
    ghost use Rattle.leader_core.specs.Commands.{AreCommands};

    ghost Value = { Outstanding };

    ghost view = { λ c. c.link };

    ghost invariant = { λ c. AreCommands c.link c.issued.items c.issued.capacity };
}

impl Commands {
    /// No command, and room for `window` of them.
    pub(crate) fn open(alloc: Global, window: u8) -> Result<Commands, NoMemory>
        requires window { (1 ≤ window) × (window ≤ 32) }
        ensures opened { IfOk result (λ commands. commands ≡ none_issued window FRAME_MAX) }
        ensures link { IfOk result IsOutstanding }
    {
        let link = Outgoing::open(alloc, window, FRAME_MAX as u32)?;
        match HeapCircularBuffer::with_capacity(alloc, usize::from(window)) {
            Ok(issued) => Ok(Commands { link, issued }),
            Err(_) => Err(NoMemory),
        }
    }

    /// The number that the next command gets.
    pub(crate) fn next(&self) -> u64
        ensures number { result ≡ self.now.next }
        ensures link { IsOutstanding self.now }
    {
        self.link.next()
    }

    /// The oldest command's number, exactly where no more commands can be issued.
    pub(crate) fn full(&self) -> Option<u64>
        ensures full { IsSome result ↔ (length self.now.frames ≡ self.now.window) }
        ensures oldest { IfSome result (IsOldest self.now) }
        ensures link { IsOutstanding self.now }
    {
        self.link.full()
    }

    /// The number and bytes of the command at this place, the oldest at 0, or None exactly where no more than `place` stand.
    pub(crate) fn bytes_at(&self, place: usize) -> Option<(u64, &[u8])>
        ensures none { IsNone result ↔ (length self.now.frames ≤ place) }
        ensures number { IfSome result (λ command. command.0 + length self.now.frames ≡ self.now.next + place) }
        ensures frame { IfSome result (λ command. slice_get self.now.frames place ≡ Some command.1.now) }
        ensures room { IfSome result (λ command. length command.1.now ≤ self.now.size) }
        ensures link { IsOutstanding self.now }
    {
        self.link.at(place)
    }

    /// How many commands there are.
    pub(crate) fn count(&self) -> usize
        ensures count { result ≡ length self.now.frames }
        ensures link { IsOutstanding self.now }
    {
        self.link.len()
    }

    /// What the oldest command is, or None exactly where there is none.
    pub(crate) fn oldest(&self) -> Option<Issued>
        ensures none { IsNone result ↔ (self.now.frames ≡ []) }
        ensures issued { IfSome result (IsIssued (first_of self.now)) }
    {
        self.issued.front().copied()
    }

    /// Removes the oldest command.
    pub(crate) fn drop_oldest(&mut self)
        requires some { 0 < length self.old.frames }
        ensures link { self.new ≡ record self.old { frames = drop 1 self.old.frames } }
        ensures order { IsOutstanding self.new }
    {
        if let Some((number, _)) = self.link.oldest() {
            self.link.acknowledge(number);
            self.issued.pop_front();
        }
    }

    /// Issues a command for a lane's request, writes it, and gives its length.
    pub(crate) fn issue(&mut self, lane: u16, serial: u32, body: &Body<'_>, out: &mut [u8]) -> usize
        requires serial { 1 ≤ serial }
        requires linked { is_linked (kind_of (plain_body body.now)) ≡ true }
        requires body { IsBody (plain_body body.now) }
        requires free { length self.old.frames < self.old.window }
        requires size { self.old.size ≡ FRAME_MAX }
        requires next { self.old.next < 2 ^ 64 - 1 }
        requires room { HasRoom out.old }
        ensures link { self.new ≡ with_command self.old
            (spelling (frame_for lane serial self.old.next (plain_body body.now))) }
        ensures order { IsOutstanding self.new }
        ensures is_frame { IsFrame (frame_for lane serial self.old.next (plain_body body.now)) }
        ensures length { result ≡ length (spelling (frame_for lane serial self.old.next (plain_body body.now))) }
        ensures front { WritesFront (spelling (frame_for lane serial self.old.next (plain_body body.now)))
            out.old out.new }
    {
        let link = self.link.next();
        let order = order_in(body);
        let command = Frame {
            lane,
            serial,
            link,
            body: *body,
        };
        let length = encode_into(&command, out);
        let _ = self.link.issue(&out[..length]);
        self.issued.push_back(Issued {
            lane,
            serial,
            link,
            order,
        });
        length
    }
}
