//! A server is handed a frame.
ghost use Rattle.std.specs.Prelude.{◌≡◌, ◌∷◌, [], true, IfOk, IfErr, OnOk, OnErr, IfSome, option_map};
ghost use Rattle.frame_rules.specs.Frames.{plain, plain_body};
ghost use Rattle.frame_rules.specs.Room.{HasRoom};
ghost use Rattle.frame_rules.specs.Spelling.{IsFrame};
ghost use Rattle.frame_rules.specs.Whole.{is_from_client};
ghost use Rattle.node_restart.specs.Frames.{handed};
ghost use Rattle.node_restart.specs.Steps.{step_of};
ghost use Rattle.node_serve.specs.Handing.{told, is_ignored, is_taken, drained_for, sender_at, Tells};
ghost use Rattle.node_serve.specs.Logs.{CountsLog};

use crate::logged::Logged;
use frame_rules::{Body, Frame};
use helper_core::LinkTurn;
use leader_core::{Ack, Turn};
use node_restart::{Did, Role, Sender};
use wire_frames::{Received, is_command};

/// How many bytes of what was done are for one that waits for them: a client, or at a helper the leader.
fn told(did: Did) -> usize
    ensures { result ≡ told did }
{
    match did {
        Did::Replied(length) => length,
        Did::Lead(Turn::Reply(length)) => length,
        Did::Linked(LinkTurn::Carried(length)) => length,
        Did::Linked(LinkTurn::Repeated(length)) => length,
        Did::Acked(Ack::Reply(_, length)) => length,
        _ => 0,
    }
}

/// Whether bytes of the helper were ignored.
fn is_ignored(did: Did) -> bool
    ensures { result ≡ is_ignored did }
{
    matches!(did, Did::Acked(Ack::Ignored))
}

/// What a step tells.
#[derive(Clone, Copy)]
pub(crate) struct Stepped {
    /// So many bytes at the front of the buffer are for one that waits.
    pub told: usize,
    /// The leader ignored bytes of its helper.
    pub ignored: bool,
}

/// What a leader takes from clients: kinds 2 to 5 and 16.
fn is_taken(body: &Body<'_>) -> bool
    ensures value { result ≡ is_taken (plain_body body.now) }
    ensures class { result ≡ true → is_from_client (plain_body body.now) ≡ true }
{
    match *body {
        Body::Register { .. }
        | Body::Write { .. }
        | Body::Read { .. }
        | Body::Proof(_)
        | Body::Retire { .. } => true,
        _ => false,
    }
}

/// The client's frame that a server drains its link for: one that a leader takes from clients.
pub(crate) fn drained_for<'a>(role: Role, received: &Received<'a>) -> Option<Frame<'a>>
    ensures exact { option_map plain result ≡ drained_for role received.now }
    ensures is_frame { IfSome result (λ f. IsFrame (plain f)) }
    ensures class { IfSome result (λ f. is_from_client (plain_body f.body) ≡ true) }
{
    match role {
        Role::Leader => match received.frame() {
            Ok(frame) if is_taken(&frame.body) => Some(frame),
            _ => None,
        },
        Role::Helper => None,
    }
}

/// Whose frame a server takes it for: at a helper commands are the leader's, all else is a client's.
pub(crate) fn sender_at(role: Role, received: &Received<'_>) -> Sender
    ensures { result ≡ sender_at role received.now }
{
    match role {
        Role::Leader => Sender::Client,
        Role::Helper => match received.frame() {
            Ok(frame) if is_command(&frame.body) => Sender::Peer,
            _ => Sender::Client,
        },
    }
}

/// Hands a server a frame. Its answer stands at the front of `out`.
pub(crate) fn step<S: Logged>(
    server: &mut S,
    sender: Sender,
    received: &Received<'_>,
    out: &mut [u8],
) -> Result<Stepped, S::Fault>
    requires room { HasRoom out.old }
    ensures steps { IfOk result (λ t. Tells (step_of (S.log.core server.old) sender received.now)
        (S.log.core server.new) t out.new) }
    ensures takes { OnOk result (S.log.takes server.old server.new (handed sender received.now ∷ [])) }
    ensures stops { IfErr result (S.log.stops server.old server.new [] (handed sender received.now)) }
    ensures no_step { OnErr result (S.log.core server.new ≡ S.log.core server.old) }
    ensures counts { CountsLog S.rises (S.failures server.old) (S.failures server.new) result }
{
    match server.hand(sender, received, out) {
        Ok(did) => Ok(Stepped {
            told: told(did),
            ignored: is_ignored(did),
        }),
        Err(fault) => Err(fault),
    }
}
