//! Frames come to the leader.
ghost use Rattle.std.specs.Prelude.{◌≡◌, ◌≤◌, ◌++◌, length, OnOk};
ghost use Rattle.frame_rules.specs.Room.{HasRoom};
ghost use Rattle.run_rules.specs.Run.{answer_letters, ack_letters, command_letters};
ghost use Rattle.step_rules.specs.LeaderClients.{on_client};
ghost use Rattle.step_rules.specs.LeaderReplies.{on_reply_bytes, resent};
ghost use Rattle.replay_world.specs.Parts.{pool_in};

use crate::lane::lane_in;
use crate::pool::{Addressee, Letter, post};
use express_words::NoMemory;
use leader_core::{Ack, Leader, Turn, take_request};
use std::alloc::Global;

/// A client's frame: the leader's reply or its new command goes into the pool.
pub fn frame_comes(
    alloc: Global,
    leader: &mut Leader,
    pool: &mut Vec<Letter>,
    frame: &[u8],
    out: &mut [u8],
) -> Result<(), NoMemory>
    requires room { HasRoom out.old }
    ensures leader { leader.new ≡ (on_client leader.old frame.now).leader }
    ensures pool { OnOk result (pool_in pool.new.items ≡ pool_in pool.old.items ++ answer_letters
        (on_client leader.old frame.now).answer) }
    ensures settings { leader.new.settings ≡ leader.old.settings }
{
    match take_request(leader, frame, out) {
        Turn::Waiting(_) => Ok(()),
        Turn::Link(_, length) => post(alloc, pool, Addressee::HelperLink, &out[..length]),
        Turn::Reply(length) => {
            let reply = &out[..length];
            post(alloc, pool, Addressee::Client(lane_in(reply)), reply)
        }
    }
}

/// A reply of the helper: what it leads to, for a client or the helper, goes into the pool.
pub fn reply_comes(
    alloc: Global,
    leader: &mut Leader,
    pool: &mut Vec<Letter>,
    frame: &[u8],
    out: &mut [u8],
) -> Result<(), NoMemory>
    requires room { HasRoom out.old }
    ensures leader { leader.new ≡ (on_reply_bytes leader.old frame.now).leader }
    ensures pool { OnOk result (pool_in pool.new.items ≡ pool_in pool.old.items ++ ack_letters
        (on_reply_bytes leader.old frame.now).ack) }
    ensures settings { leader.new.settings ≡ leader.old.settings }
{
    match leader.on_link_reply(frame, out) {
        Ack::Ignored => Ok(()),
        Ack::Link(_, length) => post(alloc, pool, Addressee::HelperLink, &out[..length]),
        Ack::Reply(lane, length) => post(alloc, pool, Addressee::Client(lane), &out[..length]),
    }
}

/// The oldest outstanding command goes into the pool once more, where one is outstanding.
pub fn tick(
    alloc: Global,
    leader: &Leader,
    pool: &mut Vec<Letter>,
    out: &mut [u8],
) -> Result<(), NoMemory>
    requires room { HasRoom out.old }
    ensures pool { OnOk result (pool_in pool.new.items ≡ pool_in pool.old.items ++ command_letters
        (resent leader.now)) }
{
    match leader.resend(out) {
        None => Ok(()),
        Some((_, length)) => post(alloc, pool, Addressee::HelperLink, &out[..length]),
    }
}
