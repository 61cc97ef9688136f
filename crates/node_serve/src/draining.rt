//! The leader exchanges its outstanding commands with the helper.
ghost use Rattle.std.specs.Prelude.{◌≡◌, ◌<◌, ◌≤◌, length, take, IfOk, OnOk};
ghost use Rattle.frame_rules.specs.Room.{HasRoom};
ghost use Rattle.node_exchange.specs.Exchanging.{EarlyAtEnd};
ghost use Rattle.node_serve.specs.Draining.{IsOldest, rounds_of};
ghost use Rattle.node_serve.specs.Moved.{moved, shown, calls_of};
ghost use Rattle.node_serve.specs.Outcomes.{ComesFrom, exchange_ways, drain_ways, IfLink, LogFault, NetFault};

use crate::handing::step;
use crate::logged::Logged;
use crate::node::Served;
use express_words::outside::Net;
use node_exchange::{Broken, exchange};
use node_restart::Sender;
use wire_frames::Received;

/// Why a leader's exchanges and steps end early, over a log of such faults.
#[derive(Clone, Copy, Debug, PartialEq, Eq)]
pub(crate) enum Broke<F> {
    /// An exchange with the helper: what is said of it.
    Link(Served),
    /// The log refused a frame, and its step wasn't taken.
    Keep(F),
}

/// One exchange: the command of `size` bytes at the front of `out` goes to the helper, and its answer to the leader.
/// Gives the length of the reply for the client, which stands at the front of `out` then; 0 where a settle follows.
fn exchange_one<N: Net, S: Logged>(
    server: &mut S,
    peer: &str,
    net: &mut N,
    out: &mut [u8],
    size: usize,
    answer: &mut [u8],
) -> Result<usize, Broke<S::Fault>>
    requires room { HasRoom out.old }
    requires answer_room { HasRoom answer.old }
    requires within { size ≤ length out.old }
    requires oldest { IsOldest (S.log.core server.old) (take size out.old) }
    ensures ends { ComesFrom S.log peer.now (λ p. exchange_ways p (take size out.old) out.new) result
        (moved server.old server.new) (calls_of (shown N.seen net.old net.new)) }
    ensures within { IfOk result (λ n. n ≤ length out.new) }
    ensures nearer { OnOk result (rounds_of (S.log.core server.new) < rounds_of (S.log.core server.old)) }
    ensures early { IfLink result (λ why. why ≡ Served.LinkBad → EarlyAtEnd (N.seen net.new).calls N.Conn.seen) }
    ensures fault { NetFault result (N.seen net.old).faults (N.seen net.new).faults }
    ensures counts { LogFault S.rises (S.failures server.old) (S.failures server.new) result }
    ensures door { (N.seen net.new).doors ≡ (N.seen net.old).doors }
{
    let count = match exchange(net, peer, &out[..size], answer) {
        Ok(count) => count,
        Err(Broken::Fault(count)) => return Err(Broke::Link(Served::LinkFault(count))),
        Err(Broken::Early(_)) => return Err(Broke::Link(Served::LinkBad)),
        Err(Broken::Wrong(_)) => return Err(Broke::Link(Served::LinkBad)),
    };
    let received = Received::of(&answer[..count]);
    match step(server, Sender::Peer, &received, out) {
        Ok(stepped) => {
            if stepped.ignored {
                Err(Broke::Link(Served::LinkBad))
            } else {
                Ok(stepped.told)
            }
        }
        Err(fault) => Err(Broke::Keep(fault)),
    }
}

/// Exchanges the oldest outstanding command until none is outstanding. Gives the length of the last reply for the
/// client, which stands at the front of `out`: the one of `told` bytes that stands there now where there is no
/// exchange.
pub(crate) fn drain<N: Net, S: Logged>(
    server: &mut S,
    peer: &str,
    net: &mut N,
    out: &mut [u8],
    told: usize,
    answer: &mut [u8],
) -> Result<usize, Broke<S::Fault>>
    requires room { HasRoom out.old }
    requires answer_room { HasRoom answer.old }
    requires within { told ≤ length out.old }
    ensures ends { ComesFrom S.log peer.now (λ p. drain_ways p (take told out.old) out.new) result
        (moved server.old server.new) (calls_of (shown N.seen net.old net.new)) }
    ensures within { IfOk result (λ n. n ≤ length out.new) }
    ensures early { IfLink result (λ why. why ≡ Served.LinkBad → EarlyAtEnd (N.seen net.new).calls N.Conn.seen) }
    ensures fault { NetFault result (N.seen net.old).faults (N.seen net.new).faults }
    ensures counts { LogFault S.rises (S.failures server.old) (S.failures server.new) result }
    ensures door { (N.seen net.new).doors ≡ (N.seen net.old).doors }
{
    let mut reply = told;
    'draining: while let Some(size) = server.oldest(out) {
        match exchange_one(server, peer, net, out, size, answer) {
            Ok(size) => reply = size,
            Err(why) => return Err(why),
        }
    }
    Ok(reply)
}
