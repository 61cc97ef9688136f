//! One question to a server of a pair.
ghost use Rattle.std.specs.Prelude.{◌≡◌};
ghost use Rattle.express_words.specs.Limits.{IsWidth};
ghost use Rattle.frame_rules.specs.Frames.{plain};
ghost use Rattle.frame_rules.specs.Spelling.{IsFrame};
ghost use Rattle.pair_check.specs.Answers.{Asks, CountBy};
ghost use Rattle.pair_check.specs.Questions.{helper_question, leader_question};

use crate::found::{Found, found_in};
use crate::questions::{to_helper, to_leader};
use express_words::outside::Net;
use frame_rules::{FRAME_MAX, Frame};
use node_exchange::{Broken, exchange};
use wire_frames::encode_into;

/// The bytes of a public part before its last block.
const LEVELS_LEN: usize = 2064;

/// The bytes of a public part of the greatest width.
const PART_MAX: usize = LEVELS_LEN + 4096;

fn ask<N: Net>(net: &mut N, place: &str, question: &Frame<'_>) -> Result<Found, Broken>
    requires { IsFrame (plain question.now) }
    ensures asks { Asks place.now (plain question.now) result (N.seen net.old).calls (N.seen net.new).calls }
    ensures fault { CountBy result (N.seen net.old).faults (N.seen net.new).faults }
    ensures door { (N.seen net.new).doors ≡ (N.seen net.old).doors }
{
    let mut frame = [0u8; FRAME_MAX];
    let mut reply = [0u8; FRAME_MAX];
    let size = encode_into(question, &mut frame);
    let count = exchange(net, place, &frame[..size], &mut reply)?;
    Ok(found_in(&reply[..count]))
}

/// Asks the leader at this place, HOST:PORT, for its width in bytes and its lanes.
pub fn ask_leader<N: Net>(net: &mut N, place: &str, width: u32) -> Result<Found, Broken>
    requires { IsWidth width }
    ensures asks { Asks place.now (leader_question width) result (N.seen net.old).calls (N.seen net.new).calls }
    ensures fault { CountBy result (N.seen net.old).faults (N.seen net.new).faults }
    ensures door { (N.seen net.new).doors ≡ (N.seen net.old).doors }
{
    let part = [0u8; PART_MAX];
    ask(net, place, &to_leader(&part[..LEVELS_LEN + width as usize]))
}

/// Asks the helper at this place, HOST:PORT, for its lanes. Of its width it says nothing.
pub fn ask_helper<N: Net>(net: &mut N, place: &str) -> Result<Found, Broken>
    ensures asks { Asks place.now helper_question result (N.seen net.old).calls (N.seen net.new).calls }
    ensures fault { CountBy result (N.seen net.old).faults (N.seen net.new).faults }
    ensures door { (N.seen net.new).doors ≡ (N.seen net.old).doors }
{
    ask(net, place, &to_helper())
}
