//! What is told through the clients' door and over the link, written to the front of a buffer.
ghost use Rattle.std.specs.Prelude.{◌≡◌, ◌≤◌, length, take};
ghost use Rattle.http_door.specs.Replies.{plain_reply};
ghost use Rattle.door_asks.specs.Answers.{answer_bytes};
ghost use Rattle.many_conns.specs.Rules.{Answers, IsWithin, outcome_of};
ghost use Rattle.many_servers.specs.Doors.{answers, peer_record};
ghost use Rattle.many_servers.specs.Packets.{packet};

use crate::packet::write_packet;
use door_asks::write_answer;
use http_door::Reply;
use many_conns::Said;
use node_journal::RECORD_MAX;
use node_restart::{Sender, put_record};

/// Writes an answer for a client, and gives its length.
pub(crate) fn put_answer(reply: &Reply<'_>, out: &mut [u8]) -> usize
    requires room { length (answer_bytes (plain_reply reply.now)) ≤ length out.old }
    ensures written { take result out.new ≡ answer_bytes (plain_reply reply.now) }
    ensures within { result ≤ length out.new }
    ensures length { length out.new ≡ length out.old }
{
    match write_answer(reply, out) {
        Some(n) => n,
        None => unreachable!(),
    }
}

/// Answers a client.
pub(crate) fn answer(reply: &Reply<'_>, out: &mut [u8]) -> Said
    requires room { length (answer_bytes (plain_reply reply.now)) ≤ length out.old }
    ensures says { outcome_of result out.new ≡ answers (plain_reply reply.now) }
    ensures within { IsWithin result (length out.new) }
    ensures length { length out.new ≡ length out.old }
{
    Said::Answer(put_answer(reply, out))
}

/// Writes the packet of a frame, and gives its length.
pub(crate) fn put_frame(frame: &[u8], out: &mut [u8]) -> usize
    requires few { length frame.now ≤ 8213 }
    requires room { 8216 ≤ length out.old }
    ensures written { take result out.new ≡ packet (peer_record frame.now) }
    ensures within { result ≤ length out.new }
    ensures length { length out.new ≡ length out.old }
{
    let mut record = [0; RECORD_MAX];
    write_packet(put_record(Sender::Peer, frame, &mut record), out)
}

/// Answers the leader with a packet of a frame.
pub(crate) fn answer_peer(frame: &[u8], out: &mut [u8]) -> Said
    requires few { length frame.now ≤ 8213 }
    requires room { 8216 ≤ length out.old }
    ensures says { outcome_of result out.new ≡ Answers (packet (peer_record frame.now)) }
    ensures within { IsWithin result (length out.new) }
    ensures length { length out.new ≡ length out.old }
{
    Said::Answer(put_frame(frame, out))
}
