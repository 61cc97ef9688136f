//! What a crash of the client's disk leaves as it is.
use crate::beginning::Beginning;
use crate::fault::Result;
use crate::plain::Plain;
use leader_core::{Ack, Turn};
use node_restart::{Did, Role, Sender};
use std::alloc::Global;

/// Both servers, and the outcomes that were told, in order.
#[derive(Drop)]
pub struct World {
    leader: Plain,
    helper: Plain,
    pub told: Vec<String>,
}

// Whether the leader wrote a command to the helper.
fn is_command(did: Did) -> bool {
    matches!(
        did,
        Did::Lead(Turn::Link(_, _)) | Did::Acked(Ack::Link(_, _))
    )
}

impl World {
    /// Servers of messages of 16 bytes, before their first frame.
    pub fn open(alloc: Global) -> Result<World> {
        let beginning = Beginning::of("16 4 1 1")?;
        Ok(World {
            leader: Plain::open(alloc, &beginning.with(Role::Leader, [1; 32]))?,
            helper: Plain::open(alloc, &beginning.with(Role::Helper, [2; 32]))?,
            told: Vec::new(alloc),
        })
    }

    // Hands what the leader wrote to the helper and its reply to the leader, until the leader has a reply for the client.
    fn lead(&mut self, alloc: Global, frame: &[u8]) -> Result<Vec<u8>> {
        let (mut did, mut bytes) = self.leader.take(alloc, Sender::Client, frame)?;
        for _turn in 0..2u8 {
            if !is_command(did) {
                return Ok(bytes);
            }
            let (_, reply) = self.helper.take(alloc, Sender::Peer, &bytes)?;
            (did, bytes) = self.leader.take(alloc, Sender::Peer, &reply)?;
        }
        Ok(bytes)
    }

    /// The reply to a frame of the client by its server.
    pub fn answer(&mut self, alloc: Global, server: u8, frame: &[u8]) -> Result<Vec<u8>> {
        if server == 1 {
            let (_, reply) = self.helper.take(alloc, Sender::Client, frame)?;
            return Ok(reply);
        }
        self.lead(alloc, frame)
    }
}
