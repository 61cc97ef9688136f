//! One frame goes to a peer, and one comes back.
ghost use Rattle.std.specs.Prelude.{◌≡◌, ℕ, ◌≤◌, length, take, IfOk, Err, Some};
ghost use Rattle.frame_rules.specs.Room.{HasRoom};
ghost use Rattle.node_exchange.specs.Exchanging.{ExchangeOn, answer_in, CountBy, ClosedAtEnd, broken_text};
ghost use Rattle.node_exchange.specs.Taking.{IsOneFrame};

use crate::reading::{Reading, read_frame};
use express_words::outside::{Net, Sink};
use frame_rules::FrameFault;
use std::fmt;

/// Why an exchange gave no frame.
#[derive(Clone, Copy, Debug, PartialEq, Eq)]
pub enum Broken {
    /// The net or its connection failed; the net's count of faults.
    Fault(u64),
    /// The answer ended after so many bytes, before it was a frame.
    Early(u32),
    /// The answer's bytes are no frame.
    Wrong(FrameFault),
}

impl fmt::Display for Broken {
    ghost output = { λ broken. Some (broken_text broken) };

    fn fmt<W: fmt::Write>(&self, f: &mut fmt::Formatter<W>) -> fmt::Result {
        match *self {
            Broken::Fault(count) => write!(f, "the net has had {count} faults"),
            Broken::Early(count) => write!(f, "the answer ended after {count} bytes"),
            Broken::Wrong(fault) => write!(f, "the answer is no frame: {fault}"),
        }
    }
}

/// Dials the peer, sends it a frame, and takes one frame of its answer into the front of `reply`, never more bytes
/// than are wanted of it. Gives the length of that frame.
pub fn exchange<N: Net>(
    net: &mut N,
    peer: &str,
    frame: &[u8],
    reply: &mut [u8],
) -> Result<usize, Broken>
    requires room { HasRoom reply.old }
    ensures frame { IfOk result (λ n. (n ≤ length reply.new) × IsOneFrame (take n reply.new)) }
    // One dial, and where it succeeded one close of its connection, after what that took and gave.
    ensures calls { ExchangeOn peer.now (record { sent = frame.now; answer = answer_in result reply.new })
        (N.seen net.old).calls (N.seen net.new).calls }
    ensures early { (n : ℕ) → result ≡ Err (Broken.Early n) → (conn : N.Conn)
        × ClosedAtEnd (N.seen net.new).calls (N.Conn.seen conn) }
    ensures fault { CountBy result (N.seen net.old).faults (N.seen net.new).faults }
    ensures door { (N.seen net.new).doors ≡ (N.seen net.old).doors }
{
    let mut conn = match net.dial(peer) {
        Ok(conn) => conn,
        Err(_) => return Err(Broken::Fault(net.faults())),
    };
    if conn.put(frame).is_err() {
        net.close(conn);
        return Err(Broken::Fault(net.faults()));
    }
    let (count, reading) = read_frame(&mut conn, reply);
    net.close(conn);
    match reading {
        Reading::Whole => Ok(count),
        Reading::Wrong(fault) => Err(Broken::Wrong(fault)),
        Reading::Ended => Err(Broken::Early(count as u32)),
        Reading::Failed => Err(Broken::Fault(net.faults())),
    }
}
