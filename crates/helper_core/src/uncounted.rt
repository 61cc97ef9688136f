//! The helper takes bytes of the leader, and nobody counts the nodes.
ghost use Rattle.std.specs.Prelude.{◌≡◌, ◌<◌};
ghost use Rattle.frame_rules.specs.Room.{HasRoom};
ghost use Rattle.step_rules.specs.HelperCommands.{on_link_bytes};
ghost use Rattle.helper_core.specs.Turns.{DoesLink};

use crate::helper::{Helper, LinkTurn};
use dpf_eval::Steps;
use std::marker::Brand;
use std::sync::ledger::{Blank, Ledger};
use wire_frames::Received;

// The nodes that an audit expands are counted for this call alone.
fn carry_counted<L: Ledger>(
    blank: Blank,
    helper: &mut Helper,
    received: &Received<'_>,
    out: &mut [u8],
) -> LinkTurn
    requires name { blank.name ≡ L.name }
    requires parts { blank.parts ≡ L.parts }
    requires shared { 0 < blank.parts }
    requires room { HasRoom out.old }
    ensures { DoesLink (on_link_bytes helper.old received.now) helper.old helper.new result out.old out.new }
{
    let mut steps = Steps::<L>::new(blank);
    helper.hear_link(received, out, &mut steps)
}

/// Bytes of the leader: carries a command out in the order of the link's numbers, or gives the kept reply, which is
/// written to the front of `out`.
pub fn hear_command(helper: &mut Helper, received: &Received<'_>, out: &mut [u8]) -> LinkTurn
    requires room { HasRoom out.old }
    ensures { DoesLink (on_link_bytes helper.old received.now) helper.old helper.new result out.old out.new }
{
    carry_counted::<Brand>(Blank::new(1), helper, received, out)
}

/// Bytes of the leader, likewise.
pub fn carry_command(helper: &mut Helper, frame: &[u8], out: &mut [u8]) -> LinkTurn
    requires room { HasRoom out.old }
    ensures { DoesLink (on_link_bytes helper.old frame.now) helper.old helper.new result out.old out.new }
{
    hear_command(helper, &Received::of(frame), out)
}
