//! The server whose frames are kept.
ghost use Rattle.std.specs.Prelude.{◌≡◌, ◌↔◌, ◌<◌, ◌≤◌, IfOk, IfSome, IsNone, Some, None, length, take, drop, option_map};
ghost use Rattle.frame_rules.specs.Spelling.{spelling};
ghost use Rattle.frame_rules.specs.Room.{HasRoom};
ghost use Rattle.leader_core.specs.Told.{sent_length};
ghost use Rattle.node_restart.specs.Openings.{IsOpening};
ghost use Rattle.node_restart.specs.Steps.{opened, step_of, settings_of, role_of, share_in, resent_by, IsOldest, Takes};

use crate::did::Did;
use crate::frames::Sender;
use crate::opening::Opening;
use crate::steps::{help_client, help_peer, lead_client, lead_peer};
use express_words::{NoMemory, Role};
use helper_core::Helper;
use leader_core::Leader;
use std::alloc::Global;
use wire_frames::Received;

/// A server.
#[derive(Drop)]
pub enum Core {
    Lead(Leader),
    Help(Helper),
}

impl Core {
    /// The server before its first frame.
    pub(crate) fn open(alloc: Global, opening: &Opening) -> Result<Core, NoMemory>
        ensures { IfOk result (λ core. core ≡ opened opening.now) }
    {
        match opening.role {
            Role::Leader => {
                let leader = Leader::open(alloc, &opening.settings, &opening.seed)?;
                Ok(Core::Lead(leader))
            }
            Role::Helper => {
                let helper = Helper::open(alloc, &opening.settings, &opening.seed)?;
                Ok(Core::Help(helper))
            }
        }
    }

    /// Takes one step.
    pub(crate) fn step(&mut self, sender: Sender, received: &Received<'_>, out: &mut [u8]) -> Did
        requires room { HasRoom out.old }
        ensures takes { Takes (step_of self.old sender received.now) self.new result out.old out.new }
        ensures settings { settings_of self.new ≡ settings_of self.old }
        ensures role { role_of self.new ≡ role_of self.old }
    {
        match self {
            Core::Lead(leader) => match sender {
                Sender::Client => lead_client(leader, received, out),
                Sender::Peer => lead_peer(leader, received, out),
            },
            Core::Help(helper) => match sender {
                Sender::Client => help_client(helper, received, out),
                Sender::Peer => help_peer(helper, received, out),
            },
        }
    }

    /// Writes the leader's oldest outstanding command again.
    pub(crate) fn resend(&self, out: &mut [u8]) -> Option<(u64, usize)>
        requires room { HasRoom out.old }
        ensures none { IsNone result ↔ (resent_by self.now ≡ None) }
        ensures number { IfSome result (λ x. IsOldest self.now x.0) }
        ensures length { IfSome result (λ x. option_map (λ c. length (spelling c)) (resent_by self.now)
            ≡ Some x.1) }
        ensures written { IfSome result (λ x. option_map spelling (resent_by self.now)
            ≡ Some (take x.1 out.new)) }
        ensures rest { drop (sent_length result) out.new ≡ drop (sent_length result) out.old }
    {
        match self {
            Core::Lead(leader) => leader.resend(out),
            Core::Help(_) => None,
        }
    }

    /// The share of a box.
    pub(crate) fn share(&self, box_number: u32) -> &[u8]
        requires { box_number < (settings_of self.now).boxes }
        ensures { result.now ≡ share_in self.now box_number }
    {
        match self {
            Core::Lead(leader) => leader.share(box_number),
            Core::Help(helper) => helper.share(box_number),
        }
    }
}
