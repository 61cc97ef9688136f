//! The leader takes a client's frame, and nobody counts the nodes.
ghost use Rattle.std.specs.Prelude.{◌≡◌, ◌<◌};
ghost use Rattle.frame_rules.specs.Room.{HasRoom};
ghost use Rattle.leader_core.specs.Turns.{DoesClient};

use crate::leader::Leader;
use crate::turn::Turn;
use dpf_eval::Steps;
use std::marker::Brand;
use std::sync::ledger::{Blank, Ledger};
use wire_frames::Received;

// The nodes that an audit expands are counted for this call alone.
fn take_counted<L: Ledger>(
    blank: Blank,
    leader: &mut Leader,
    received: &Received<'_>,
    out: &mut [u8],
) -> Turn
    requires name { blank.name ≡ L.name }
    requires parts { blank.parts ≡ L.parts }
    requires shared { 0 < blank.parts }
    requires room { HasRoom out.old }
    ensures { DoesClient leader.old received.now leader.new result out.old out.new }
{
    let mut steps = Steps::<L>::new(blank);
    leader.hear_client(received, out, &mut steps)
}

/// A client's frame: writes one reply or one new command to the front of `out`, or nothing where the lane's own command
/// is outstanding. Any bytes get an answer.
pub fn hear_request(leader: &mut Leader, received: &Received<'_>, out: &mut [u8]) -> Turn
    requires room { HasRoom out.old }
    ensures { DoesClient leader.old received.now leader.new result out.old out.new }
{
    take_counted::<Brand>(Blank::new(1), leader, received, out)
}

/// A client's frame, likewise.
pub fn take_request(leader: &mut Leader, frame: &[u8], out: &mut [u8]) -> Turn
    requires room { HasRoom out.old }
    ensures { DoesClient leader.old frame.now leader.new result out.old out.new }
{
    hear_request(leader, &Received::of(frame), out)
}
