//! The server takes its step at what a connection brought, and its reply is written.
ghost use Rattle.std.specs.Prelude.{◌≡◌, List, ℕ, None, IfOk, OnErr};
ghost use Rattle.express_words.specs.Seen.{Seen};
ghost use Rattle.node_exchange.specs.Exchanging.{EarlyAtEnd};
ghost use Rattle.node_restart.specs.Steps.{role_of};
ghost use Rattle.node_serve.specs.Draining.{FaultIn};
ghost use Rattle.node_serve.specs.Handing.{IsHelp, drained_for};
ghost use Rattle.node_serve.specs.Logs.{CountsLog};
ghost use Rattle.node_serve.specs.Moved.{moved, shown};
ghost use Rattle.node_serve.specs.Outcomes.{AnswerEnds};
ghost use Rattle.node_serve.specs.Responding.{IsSent};
ghost use Rattle.node_serve.specs.Serving.{WritesReply};

use crate::draining::Broke;
use crate::handing::{drained_for, sender_at, step};
use crate::leading::{handle, say_link_down};
use crate::logged::Logged;
use crate::node::Served;
use express_words::outside::{Conn, Net};
use frame_rules::FRAME_MAX;
use wire_frames::Received;

/// Writes a reply, if there is one. ConnFault has the connection's count of faults where that failed.
fn send<C: Conn>(conn: &mut C, reply: &[u8]) -> Served
    ensures writes { WritesReply result (C.seen conn.old) (C.seen conn.new) reply.now }
    ensures sent { IsSent result }
    ensures content { (C.seen conn.new).content ≡ (C.seen conn.old).content }
{
    if reply.is_empty() {
        return Served::Answered;
    }
    match conn.put(reply) {
        Ok(()) => Served::Answered,
        Err(_) => Served::ConnFault(conn.faults()),
    }
}

// A server that drains for no such bytes takes its step alone, with no call on a net, whatever that is.
fn answer_alone<C: Conn, S: Logged>(
    server: &mut S,
    received: &Received<'_>,
    conn: &mut C,
) -> Result<Served, S::Fault>
    requires alone { None ≡ drained_for (role_of (S.log.core server.old)) received.now }
    ensures ends { (peer : List ℕ) (net : Seen) → AnswerEnds S.log peer received.now result server.old server.new
        (moved net net) (shown C.seen conn.old conn.new) }
    ensures sent { IfOk result IsSent }
    ensures untouched { OnErr result (conn.new ≡ conn.old) }
    ensures content { (C.seen conn.new).content ≡ (C.seen conn.old).content }
    ensures counts { CountsLog S.rises (S.failures server.old) (S.failures server.new) result }
{
    let mut out = [0u8; FRAME_MAX];
    match step(
        server,
        sender_at(server.role(), received),
        received,
        &mut out,
    ) {
        Ok(stepped) => Ok(send(conn, &out[..stepped.told])),
        Err(fault) => Err(fault),
    }
}

/// The server takes its step at bytes that are a frame, or known to be none.
pub(crate) fn answer<C: Conn, N: Net, S: Logged>(
    server: &mut S,
    peer: &str,
    received: &Received<'_>,
    conn: &mut C,
    net: &mut N,
) -> Result<Served, S::Fault>
    ensures ends { AnswerEnds S.log peer.now received.now result server.old server.new
        (shown N.seen net.old net.new) (shown C.seen conn.old conn.new) }
    ensures early { IfOk result (λ why. why ≡ Served.LinkBad → EarlyAtEnd (N.seen net.new).calls N.Conn.seen) }
    ensures fault { IfOk result (λ why. FaultIn why (N.seen net.old).faults (N.seen net.new).faults) }
    ensures unfailed { OnErr result ((N.seen net.new).faults ≡ (N.seen net.old).faults) }
    ensures door { (N.seen net.new).doors ≡ (N.seen net.old).doors }
    ensures untouched { OnErr result (conn.new ≡ conn.old) }
    ensures content { (C.seen conn.new).content ≡ (C.seen conn.old).content }
    ensures counts { CountsLog S.rises (S.failures server.old) (S.failures server.new) result }
    ensures helper_rests { IsHelp (S.log.core server.old) → net.new ≡ net.old }
{
    let Some(client) = drained_for(server.role(), received) else {
        return answer_alone(server, received, conn);
    };
    let mut out = [0u8; FRAME_MAX];
    match handle(server, peer, received, net, &mut out) {
        Ok(told) => Ok(send(conn, &out[..told])),
        Err(Broke::Link(why)) => {
            let told = say_link_down(&client, net.faults(), &mut out);
            let _ = send(conn, &out[..told]);
            Ok(why)
        }
        Err(Broke::Keep(fault)) => Err(fault),
    }
}
