//! One connection is served, over whatever log.
ghost use Rattle.std.specs.Prelude.{◌≡◌, ◌≢◌, Err, IfOk, OnErr, OnOk};
ghost use Rattle.express_words.specs.Causes.{Rose};
ghost use Rattle.express_words.specs.Streams.{IsAtEnd};
ghost use Rattle.frame_rules.specs.Reading.{decoded};
ghost use Rattle.frame_rules.specs.declared.fault.FrameFault.TheVariants.{Short};
ghost use Rattle.node_serve.specs.Draining.{FaultIn};
ghost use Rattle.node_exchange.specs.Exchanging.{EarlyAtEnd};
ghost use Rattle.node_serve.specs.Handing.{IsHelp};
ghost use Rattle.node_serve.specs.Logs.{CountsLog};
ghost use Rattle.node_serve.specs.Moved.{shown};
ghost use Rattle.node_serve.specs.Outcomes.{NothingMoves, ServeEnds};
ghost use Rattle.node_serve.specs.Own.{TellsOwnOn};
ghost use Rattle.node_serve.specs.Serving.{Brings};
ghost use Rattle.node_exchange.specs.Taking.{EndsBy};

use crate::answering::answer;
use crate::logged::Logged;
use crate::node::Served;
use express_words::outside::{Conn, Net, Source};
use frame_rules::FRAME_MAX;
use node_exchange::{Reading, read_frame};
use wire_frames::Gather;

/// Reads one frame, of which `gather` holds then what is handed on.
#[tactic(auto, using(node_exchange::proofs::HeldLaws::ends_fed))]
fn gather_frame<S: Source>(source: &mut S, gather: &mut Gather) -> Reading
    ensures brings { Brings (S.seen source.old).content (S.seen source.new).content gather.new }
    ensures ends { EndsBy result gather.new }
    ensures end { result ≡ Reading.Ended → IsAtEnd (S.seen source.new).content }
    ensures cause { result ≡ Reading.Failed → Rose (S.seen source.old).faults (S.seen source.new).faults }
    ensures unfailed { result ≢ Reading.Failed → (S.seen source.new).faults ≡ (S.seen source.old).faults }
    ensures writes_nothing { (S.seen source.new).written ≡ (S.seen source.old).written }
{
    let mut taken = [0u8; FRAME_MAX];
    let (count, reading) = read_frame(source, &mut taken);
    gather.clear();
    let _ = gather.feed(&taken[..count]);
    reading
}

/// Serves one connection: reads one frame of it with `gather`, never taking more bytes than are wanted of it, takes the
/// server's step, and writes one reply. A leader exchanges its outstanding commands with its helper, which listens at
/// `peer`, before its step and after it. Each frame goes to the log before its step. Where the log refuses one the
/// answer is its fault, and nothing is written.
pub fn serve<C: Conn, N: Net, S: Logged>(
    server: &mut S,
    peer: &str,
    gather: &mut Gather,
    conn: &mut C,
    net: &mut N,
) -> Result<Served, S::Fault>
    // What is handed on is what was taken of the connection, up to the end of a frame or the byte at which it is wrong.
    ensures brings { Brings (C.seen conn.old).content (C.seen conn.new).content gather.new }

    // Where it ended or failed before that, nothing moves and nothing is written.
    ensures cut { decoded gather.new ≡ Err Short → NothingMoves result server.old server.new net.old net.new
        (shown C.seen conn.old conn.new) }

    // Else the server takes its step, and its reply is written. Or the log refused a frame that it was handed on
    // the way: it took no step at it, and nothing is written.
    ensures serves { ServeEnds S.log peer.now gather.new result server.old server.new
        (shown N.seen net.old net.new) (shown C.seen conn.old conn.new) }

    // What is written is a front of what answers that very frame, and nothing else; and what a leader took of its
    // helper in between answers the commands that it sent, or the link is told to be down.
    ensures own { OnOk result (TellsOwnOn (S.log.core server.old) gather.new (shown N.seen net.old net.new)
        (shown C.seen conn.old conn.new)) }

    // LinkBad for an answer that ended early comes only where its connection has nothing left.
    ensures early { IfOk result (λ why. why ≡ Served.LinkBad → EarlyAtEnd (N.seen net.new).calls N.Conn.seen) }
    ensures helper_rests { IsHelp (S.log.core server.old) → net.new ≡ net.old }
    // The net's count rose exactly where its fault is told, and the log's where its own is.
    ensures fault { IfOk result (λ why. FaultIn why (N.seen net.old).faults (N.seen net.new).faults) }
    ensures unfailed { OnErr result ((N.seen net.new).faults ≡ (N.seen net.old).faults) }
    ensures counts { CountsLog S.rises (S.failures server.old) (S.failures server.new) result }
    ensures door { (N.seen net.new).doors ≡ (N.seen net.old).doors }
{
    match gather_frame(conn, gather) {
        Reading::Failed => Ok(Served::ConnFault(conn.faults())),
        Reading::Ended => Ok(Served::Ended),
        Reading::Whole | Reading::Wrong(_) => {
            answer(server, peer, &gather.received(), conn, net)
        }
    }
}
