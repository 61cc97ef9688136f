//! A server without a journal.
ghost use Rattle.frame_rules.specs.Room.{HasRoom};

use crate::beginning::Beginning;
use crate::fault::Result;
use crate::hidden::Hidden;
use crate::texts::{bytes_text, front_of, written};
use express_words::Text;
use frame_rules::FRAME_MAX;
use helper_core::{Helper, LinkTurn};
use leader_core::Leader;
use node_restart::{Did, Role, Sender, help_client, help_peer, lead_client, lead_peer};
use node_serve::Node;
use std::alloc::Global;
use wire_frames::Received;

/// A server without a journal. A leader's helper is at the address `helper`.
pub(crate) type Plain = Hidden<Node>;

impl Plain {
    /// A server with no boxes.
    pub(crate) fn open(alloc: Global, beginning: &Beginning) -> Result<Plain> {
        let opening = &beginning.opening;
        let peer = String::from_str(alloc, "helper")?;
        let inside = match opening.role {
            Role::Leader => {
                let leader = Leader::open(alloc, &opening.settings, &opening.seed)?;
                Node::Lead(leader, Text::from_string(peer))
            }
            Role::Helper => Node::Help(Helper::open(alloc, &opening.settings, &opening.seed)?),
        };
        Ok(Hidden { inside })
    }

    fn step(&mut self, sender: Sender, received: &Received<'_>, out: &mut [u8]) -> Did
        requires room { HasRoom out.old }
    {
        match (&mut self.inside, sender) {
            (Node::Lead(leader, _), Sender::Client) => lead_client(leader, received, out),
            (Node::Lead(leader, _), Sender::Peer) => lead_peer(leader, received, out),
            (Node::Help(helper), Sender::Client) => help_client(helper, received, out),
            (Node::Help(helper), Sender::Peer) => help_peer(helper, received, out),
        }
    }

    /// What it does with a frame, and what it writes.
    pub(crate) fn take(
        &mut self,
        alloc: Global,
        sender: Sender,
        frame: &[u8],
    ) -> Result<(Did, Vec<u8>)> {
        let mut out = [0u8; FRAME_MAX];
        let did = self.step(sender, &Received::of(frame), &mut out);
        Ok((did, Vec::from_slice(alloc, front_of(&out, written(did)))?))
    }

    /// What it writes at a frame, as a text; a reply that was kept is told as such.
    pub(crate) fn answer(&mut self, alloc: Global, sender: Sender, frame: &[u8]) -> Result<String> {
        let (did, bytes) = self.take(alloc, sender, frame)?;
        let text = bytes_text(alloc, &bytes)?;
        match did {
            Did::Linked(LinkTurn::Repeated(_)) => Ok(format!(in alloc; "again {text}")?),
            _ => Ok(text),
        }
    }
}
