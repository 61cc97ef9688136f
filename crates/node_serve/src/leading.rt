//! The leader takes its step, between two drains.
ghost use Rattle.std.specs.Prelude.{◌≡◌, ◌≤◌, length, take, true, IfOk};
ghost use Rattle.frame_rules.specs.Frames.{plain, plain_body};
ghost use Rattle.frame_rules.specs.Spelling.{spelling, IsFrame};
ghost use Rattle.frame_rules.specs.Whole.{is_from_client};
ghost use Rattle.frame_rules.specs.Room.{HasRoom};
ghost use Rattle.node_exchange.specs.Exchanging.{EarlyAtEnd};
ghost use Rattle.node_serve.specs.Draining.{begun};
ghost use Rattle.node_serve.specs.Moved.{moved, shown, calls_of};
ghost use Rattle.node_serve.specs.Outcomes.{Comes, handle_ways, IfLink, LogFault, NetFault};
ghost use Rattle.node_serve.specs.Responding.{link_down};

use crate::draining::{Broke, drain};
use crate::handing::step;
use crate::logged::Logged;
use crate::node::Served;
use express_words::Refusal;
use express_words::outside::Net;
use frame_rules::{Body, FRAME_MAX, Frame};
use node_restart::Sender;
use wire_frames::{Received, answer, encode_into};

/// Drains the link, steps the leader with a client's frame, and drains the link again. The reply stands at the front
/// of `out`; its length is given.
pub(crate) fn handle<N: Net, S: Logged>(
    server: &mut S,
    peer: &str,
    received: &Received<'_>,
    net: &mut N,
    out: &mut [u8],
) -> Result<usize, Broke<S::Fault>>
    requires room { HasRoom out.old }
    ensures ends { Comes S.log peer.now (handle_ways (begun (S.log.core server.old)) received.now out.new) result
        (moved server.old server.new) (calls_of (shown N.seen net.old net.new)) }
    ensures within { IfOk result (λ n. n ≤ length out.new) }
    ensures early { IfLink result (λ why. why ≡ Served.LinkBad → EarlyAtEnd (N.seen net.new).calls N.Conn.seen) }
    ensures fault { NetFault result (N.seen net.old).faults (N.seen net.new).faults }
    ensures counts { LogFault S.rises (S.failures server.old) (S.failures server.new) result }
    ensures door { (N.seen net.new).doors ≡ (N.seen net.old).doors }
{
    let mut answer = [0u8; FRAME_MAX];
    match drain(server, peer, net, out, 0, &mut answer) {
        Ok(_) => {}
        Err(why) => return Err(why),
    }
    match step(server, Sender::Client, received, out) {
        Ok(stepped) => drain(server, peer, net, out, stepped.told, &mut answer),
        Err(fault) => Err(Broke::Keep(fault)),
    }
}

/// Tells the client of a frame that the link failed, with the net's count of faults. Gives the length of what is
/// written to the front of `out`.
#[tactic(auto, using(frame_rules::proofs::GrammarLaws::spelling_limit))]
pub(crate) fn say_link_down(frame: &Frame<'_>, count: u64, out: &mut [u8]) -> usize
    requires room { HasRoom out.old }
    requires is_frame { IsFrame (plain frame.now) }
    requires class { is_from_client (plain_body frame.now.body) ≡ true }
    ensures within { result ≤ length out.new }
    ensures written { take result out.new ≡ spelling (link_down (plain frame.now) count) }
{
    let down = answer(frame, &Body::Refused(Refusal::LinkDown(count)));
    encode_into(&down, out)
}
