//! One step of the leader or of the helper.
ghost use Rattle.std.specs.Prelude.{◌≡◌, ◌≤◌, length};
ghost use Rattle.frame_rules.specs.Room.{HasRoom};
ghost use Rattle.node_restart.specs.Steps.{lead_client, lead_peer, help_client, help_peer, Takes};

use crate::did::Did;
use crate::server::Core;
use helper_core::{Helper, hear_command};
use leader_core::{Leader, hear_request};
use wire_frames::Received;

/// A client's frame at the leader, which is stepped with it. What it writes stands at the front of `out`.
#[tactic(auto, unfolding(crate::specs::Steps::lead_client))]
pub fn lead_client(leader: &mut Leader, received: &Received<'_>, out: &mut [u8]) -> Did
    requires room { HasRoom out.old }
    ensures takes { Takes (lead_client leader.old received.now) (Core.Lead leader.new) result out.old out.new }
    ensures settings { leader.new.settings ≡ leader.old.settings }
{
    Did::Lead(hear_request(leader, received, out))
}

/// Bytes of the helper at the leader, likewise.
#[tactic(auto, unfolding(crate::specs::Steps::lead_peer))]
pub fn lead_peer(leader: &mut Leader, received: &Received<'_>, out: &mut [u8]) -> Did
    requires room { HasRoom out.old }
    ensures takes { Takes (lead_peer leader.old received.now) (Core.Lead leader.new) result out.old out.new }
    ensures settings { leader.new.settings ≡ leader.old.settings }
{
    Did::Acked(leader.hear_link_reply(received, out))
}

/// A client's frame at the helper, likewise.
#[tactic(auto, unfolding(crate::specs::Steps::help_client))]
pub fn help_client(helper: &mut Helper, received: &Received<'_>, out: &mut [u8]) -> Did
    requires room { HasRoom out.old }
    ensures takes { Takes (help_client helper.old received.now) (Core.Help helper.new) result out.old out.new }
    ensures settings { helper.new.server.settings ≡ helper.old.server.settings }
{
    Did::Replied(helper.hear_client(received, out))
}

/// Bytes of the leader at the helper, likewise.
#[tactic(auto, unfolding(crate::specs::Steps::help_peer))]
pub fn help_peer(helper: &mut Helper, received: &Received<'_>, out: &mut [u8]) -> Did
    requires room { HasRoom out.old }
    ensures takes { Takes (help_peer helper.old received.now) (Core.Help helper.new) result out.old out.new }
    ensures settings { helper.new.server.settings ≡ helper.old.server.settings }
{
    Did::Linked(hear_command(helper, received, out))
}
