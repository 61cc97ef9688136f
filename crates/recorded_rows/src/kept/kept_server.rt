//! A server with its journal on a disk in memory.
ghost use Rattle.frame_rules.specs.Room.{HasRoom};

use crate::beginning::Beginning;
use crate::disk::disk_of;
use crate::fault::{Fault, Result};
use crate::hidden::Hidden;
use crate::texts::{bytes_text, front_of, written};
use frame_rules::FRAME_MAX;
use node_journal::MemoryDisk;
use node_restart::{Did, Kept, Sender};
use std::alloc::Global;

/// A server with its journal on a disk in memory.
pub type KeptServer = Hidden<Kept<MemoryDisk>>;

impl KeptServer {
    /// A server before its first frame, on an empty disk as `disk_of` makes it.
    pub fn create(
        alloc: Global,
        beginning: &Beginning,
        limit: u32,
        failing: u64,
        arriving: &[u8],
    ) -> Result<KeptServer> {
        let disk = disk_of(alloc, &[], failing, arriving)?;
        match Kept::create(alloc, &beginning.opening, disk, u64::from(limit)) {
            Ok(inside) => Ok(Hidden { inside }),
            Err((fault, _)) => Err(Fault::from(fault)),
        }
    }

    /// The server that is opened again from a disk of these bytes.
    pub fn reopen(alloc: Global, bytes: &[u8], limit: u32) -> Result<KeptServer> {
        let disk = disk_of(alloc, bytes, 0, &[])?;
        match Kept::reopen(alloc, disk, u64::from(limit)) {
            Ok(inside) => Ok(Hidden { inside }),
            Err((fault, _)) => Err(Fault::from(fault)),
        }
    }

    fn take(&mut self, sender: Sender, frame: &[u8], out: &mut [u8]) -> Result<Did>
        requires room { HasRoom out.old }
    {
        match sender {
            Sender::Client => Ok(self.inside.on_client(frame, out)?),
            Sender::Peer => Ok(self.inside.on_peer(frame, out)?),
        }
    }

    /// What it writes at a frame.
    pub fn answer(&mut self, alloc: Global, sender: Sender, frame: &[u8]) -> Result<Vec<u8>> {
        let mut out = [0u8; FRAME_MAX];
        let did = self.take(sender, frame, &mut out)?;
        Ok(Vec::from_slice(alloc, front_of(&out, written(did)))?)
    }

    /// What a crash now leaves on its disk.
    pub fn left(self, alloc: Global) -> Result<Vec<u8>> {
        let disk = self.into_inside().into_disk();
        Ok(Vec::from_slice(alloc, disk.left())?)
    }

    /// The share of a box.
    pub fn share(&self, alloc: Global, box_number: u32) -> Result<String> {
        if box_number >= self.inside.opening().settings.boxes {
            return Err(Fault::Unknown);
        }
        bytes_text(alloc, self.inside.share(box_number))
    }
}
