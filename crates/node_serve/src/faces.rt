//! One connection is served by a server whose frames go nowhere, or to its journal.
ghost use Rattle.std.specs.Prelude.{◌≡◌, Err, IfOk, OnErr, OnOk};
ghost use Rattle.frame_rules.specs.Reading.{decoded};
ghost use Rattle.frame_rules.specs.declared.fault.FrameFault.TheVariants.{Short};
ghost use Rattle.kept_machine.specs.Faults.{Counts};
ghost use Rattle.node_serve.specs.Draining.{FaultIn};
ghost use Rattle.node_exchange.specs.Exchanging.{EarlyAtEnd};
ghost use Rattle.node_serve.specs.Handing.{IsHelp};
ghost use Rattle.node_serve.specs.JournalLog.{journal_log};
ghost use Rattle.node_serve.specs.Moved.{shown};
ghost use Rattle.node_serve.specs.NoLog.{core_of};
ghost use Rattle.node_serve.specs.Outcomes.{NothingMoves, ServeEnds};
ghost use Rattle.node_serve.specs.Own.{TellsOwnOn};
ghost use Rattle.node_serve.specs.Serving.{Brings, Completes, IsCut, IsHelper, NodeServes};

use crate::never::Never;
use crate::node::{Node, Served};
use crate::serving::serve;
use express_words::outside::{Conn, Net};
use node_journal::Disk;
use node_restart::{KeepFault, Kept};
use wire_frames::Gather;

fn unrefused(served: Result<Served, Never>) -> Served
    ensures { served ≡ Ok result }
{
    match served {
        Ok(served) => served,
        Err(never) => match never {},
    }
}

/// Serves one connection: reads one frame of it with `gather`, never taking more bytes than are wanted of it, takes the
/// server's step, and writes one reply. A leader exchanges its outstanding commands before its step and after it.
pub fn serve_one<C: Conn, N: Net>(
    node: &mut Node,
    gather: &mut Gather,
    conn: &mut C,
    net: &mut N,
) -> Served
    // What is handed on is what was taken of the connection, up to the end of a frame or the byte at which it is wrong.
    ensures brings { Brings (C.seen conn.old).content (C.seen conn.new).content gather.new }
    // Where it ended or failed before that, nothing moves and nothing is written.
    ensures cut { decoded gather.new ≡ Err Short
        → IsCut result (C.seen conn.new).content (C.seen conn.old).faults (C.seen conn.new).faults }
    ensures stays { decoded gather.new ≡ Err Short → node.new ≡ node.old }
    ensures net_rests { decoded gather.new ≡ Err Short → net.new ≡ net.old }
    ensures writes_nothing { decoded gather.new ≡ Err Short
        → (C.seen conn.new).written ≡ (C.seen conn.old).written }
    // Else the server takes its step, and its reply is written.
    ensures serves { NodeServes gather.new result node.old node.new
        (shown N.seen net.old net.new) (shown C.seen conn.old conn.new) }
    // What is written is a front of what answers that very frame, and nothing else; and what a leader took of its
    // helper in between answers the commands that it sent, or the link is told to be down.
    ensures own { TellsOwnOn (core_of node.old) gather.new (shown N.seen net.old net.new)
        (shown C.seen conn.old conn.new) }
    // LinkBad for an answer that ended early comes only where its connection has nothing left.
    ensures early { result ≡ Served.LinkBad → EarlyAtEnd (N.seen net.new).calls N.Conn.seen }
    ensures helper_rests { IsHelper node.old → net.new ≡ net.old }
    // Where no call of the connection or the net failed, its frame is answered, unless a helper answered its leader
    // with what is no reply that fits.
    ensures completes { Completes gather.new result node.old
        (shown N.seen net.old net.new) (shown C.seen conn.old conn.new) }
    // The net's count rose exactly where its fault is told.
    ensures fault { FaultIn result (N.seen net.old).faults (N.seen net.new).faults }
    ensures door { (N.seen net.new).doors ≡ (N.seen net.old).doors }
{
    match node {
        Node::Lead(leader, peer) => unrefused(serve(leader, peer.as_str(), gather, conn, net)),
        Node::Help(helper) => unrefused(serve(helper, "", gather, conn, net)),
    }
}

/// Serves one connection as `serve_one` does, with a server whose frames are kept: reads one frame of it with `gather`,
/// never taking more bytes than are wanted of it, takes the server's step, and writes one reply. A leader exchanges its
/// outstanding commands with its helper, which listens at `peer`, before its step and after it. Each frame is on the
/// disk before its step. Where one isn't kept the answer is that fault, and nothing is written.
pub fn serve_kept<C: Conn, N: Net, D: Disk>(
    kept: &mut Kept<D>,
    peer: &str,
    gather: &mut Gather,
    conn: &mut C,
    net: &mut N,
) -> Result<Served, KeepFault>
    // What is handed on is what was taken of the connection, up to the end of a frame or the byte at which it is wrong.
    ensures brings { Brings (C.seen conn.old).content (C.seen conn.new).content gather.new }

    // Where it ended or failed before that, nothing moves and nothing is written.
    ensures cut { decoded gather.new ≡ Err Short → NothingMoves result kept.old kept.new net.old net.new
        (shown C.seen conn.old conn.new) }

    // Else the server takes its step, and its reply is written. All frames that it was handed on the way were kept,
    // each before its step. Or one wasn't kept: then it took no step at it, and nothing is written.
    ensures serves { ServeEnds (journal_log D.disk) peer.now gather.new result kept.old kept.new
        (shown N.seen net.old net.new) (shown C.seen conn.old conn.new) }

    // What is written is a front of what answers that very frame, as in `serve_one`.
    ensures own { OnOk result (TellsOwnOn kept.old.core gather.new (shown N.seen net.old net.new)
        (shown C.seen conn.old conn.new)) }

    // LinkBad for an answer that ended early comes only where its connection has nothing left.
    ensures early { IfOk result (λ why. why ≡ Served.LinkBad → EarlyAtEnd (N.seen net.new).calls N.Conn.seen) }
    ensures helper_rests { IsHelp kept.old.core → net.new ≡ net.old }
    // The net's count rose exactly where its fault is told, and the disk's where its own is.
    ensures fault { IfOk result (λ why. FaultIn why (N.seen net.old).faults (N.seen net.new).faults) }
    ensures unfailed { OnErr result ((N.seen net.new).faults ≡ (N.seen net.old).faults) }
    ensures counts { Counts (D.Counted.seen kept.old.disk).faults (D.Counted.seen kept.new.disk).faults result }
    ensures door { (N.seen net.new).doors ≡ (N.seen net.old).doors }
{
    serve(kept, peer, gather, conn, net)
}
