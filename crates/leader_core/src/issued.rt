//! A command that waits for its reply.
ghost use Rattle.std.specs.Prelude.{◌≡◌, ◌≤◌, ◌==◌, ◌&&◌};
ghost use Rattle.frame_rules.specs.Frames.{plain, plain_body};
ghost use Rattle.frame_rules.specs.Spelling.{IsFrame};
ghost use Rattle.frame_rules.specs.Whole.{IsAnswer};
ghost use Rattle.leader_core.specs.Commands.{frame_for, order_in};
ghost use Rattle.leader_core.specs.Replies.{want_of_order};

use frame_rules::{Body, Frame};
use lane_table::Want;

/// What a command orders, but for what the lane's slot holds itself.
#[derive(Clone, Copy)]
pub(crate) enum CommandOrder {
    Register(u128),
    Begin,
    Audit,
    Settle,
    Read(u32),
    Retire(u32),
}

/// The oldest outstanding command.
#[derive(Clone, Copy)]
pub(crate) struct Issued {
    pub(crate) lane: u16,
    pub(crate) serial: u32,
    pub(crate) link: u64,
    pub(crate) order: Option<CommandOrder>,
}

/// What a command's body orders.
pub(crate) fn order_in(body: &Body<'_>) -> Option<CommandOrder>
    ensures { result ≡ order_in (plain_body body.now) }
{
    match *body {
        Body::LinkRegister { address } => Some(CommandOrder::Register(address)),
        Body::LinkBegin { .. } => Some(CommandOrder::Begin),
        Body::LinkAudit { .. } => Some(CommandOrder::Audit),
        Body::LinkSettle(_) => Some(CommandOrder::Settle),
        Body::LinkRead { box_number } => Some(CommandOrder::Read(box_number)),
        Body::LinkRetire { box_number } => Some(CommandOrder::Retire(box_number)),
        _ => None,
    }
}

/// What the request of a command asks for.
pub(crate) fn want_of_order(order: Option<CommandOrder>) -> Want
    ensures { result ≡ want_of_order order }
{
    match order {
        Some(CommandOrder::Register(_)) => Want::Register,
        Some(CommandOrder::Read(_)) => Want::Read,
        Some(CommandOrder::Retire(_)) => Want::Read,
        Some(CommandOrder::Begin) => Want::Write,
        Some(CommandOrder::Audit) => Want::Write,
        Some(CommandOrder::Settle) => Want::Write,
        None => Want::Write,
    }
}

impl Issued {
    /// A frame of this body for the lane's client.
    pub(crate) fn reply<'a>(self, body: &Body<'a>) -> Frame<'a>
        requires serial { 1 ≤ self.serial }
        requires answer { IsAnswer (plain_body body.now) }
        ensures value { plain result ≡ frame_for self.lane self.serial 0 (plain_body body.now) }
        ensures is_frame { IsFrame (plain result) }
    {
        Frame {
            lane: self.lane,
            serial: self.serial,
            link: 0,
            body: *body,
        }
    }

    /// Whether a reply has the command's number, lane and serial.
    pub(crate) fn is_answered_by(&self, reply: &Frame<'_>) -> bool
        ensures { result ≡ ((reply.now.link == self.now.link)
            && ((reply.now.lane == self.now.lane) && (reply.now.serial == self.now.serial))) }
    {
        reply.link == self.link && (reply.lane == self.lane && reply.serial == self.serial)
    }
}
