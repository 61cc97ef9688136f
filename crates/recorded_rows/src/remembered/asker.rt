//! A client that remembers, on a disk in memory.
ghost use Rattle.frame_rules.specs.Room.{HasRoom};

use crate::disk::disk_of;
use crate::fault::{Fault, Result};
use crate::hidden::Hidden;
use crate::remembered::world::World;
use crate::texts::{ended_text, front_of};
use client_core::Request;
use client_restart::{ClientOpening, KeptClient};
use frame_rules::FRAME_MAX;
use node_journal::MemoryDisk;
use std::alloc::Global;

/// The bytes of the disk may be so many.
const LIMIT: u64 = 65536;

/// So many requests are worked off.
const REQUESTS: u64 = 4;

const OPENING: ClientOpening = ClientOpening {
    lane: 0,
    width: 16,
    capacity: 5,
    first_serial: 1,
    seed: [7; 32],
};

/// A client with its journal.
pub type Asker = Hidden<KeptClient<MemoryDisk>>;

// The request of this serial: a register at address zero, a write to it, and two reads.
fn request_of(serial: u64) -> Request<'static> {
    match serial {
        1 => Request::Register { address: 0 },
        2 => Request::Write {
            target: 0,
            message: &[255; 16],
        },
        _ => Request::Read { own: 0 },
    }
}

impl Asker {
    /// A client before its first request, on an empty disk as `disk_of` makes it.
    pub fn create(alloc: Global, failing: u64, arriving: &[u8]) -> Result<Asker> {
        let disk = disk_of(alloc, &[], failing, arriving)?;
        match KeptClient::create(alloc, &OPENING, disk, LIMIT) {
            Ok(inside) => Ok(Hidden { inside }),
            Err((fault, _)) => Err(Fault::from(fault)),
        }
    }

    /// The client that is opened again from a disk of these bytes.
    pub fn reopen(alloc: Global, bytes: &[u8]) -> Result<Asker> {
        let disk = disk_of(alloc, bytes, 0, &[])?;
        match KeptClient::reopen(alloc, disk, LIMIT) {
            Ok(inside) => Ok(Hidden { inside }),
            Err((fault, _)) => Err(Fault::from(fault)),
        }
    }

    // What it hasn't told and is the oldest of that, as a text.
    fn oldest(&self, alloc: Global) -> Result<Option<String>> {
        match self.inside.untold().first() {
            None => Ok(None),
            Some(ended) => Ok(Some(ended_text(alloc, ended)?)),
        }
    }

    fn told(&mut self) -> Result<()> {
        if let [_, ..] = self.inside.untold() {
            self.inside.told()?;
        }
        Ok(())
    }

    fn ask(&mut self) -> Result<()> {
        match self.inside.ask(&request_of(self.inside.serial()))? {
            Ok(()) => Ok(()),
            Err(_) => Err(Fault::Unknown),
        }
    }

    fn sent(&self, frame: &mut [u8]) -> Option<(u8, usize)>
        requires room { HasRoom frame.old }
    {
        self.inside.send(frame)
    }

    // One exchange with a server.
    fn exchange(&mut self, alloc: Global, world: &mut World) -> Result<()> {
        let mut frame = [0u8; FRAME_MAX];
        let Some((server, count)) = self.sent(&mut frame) else {
            return Err(Fault::Unknown);
        };
        let reply = world.answer(alloc, server, front_of(&frame, count))?;
        self.inside.hear(&reply)?;
        Ok(())
    }

    /// Tells the oldest outcome that wasn't told, asks the next request, or makes one exchange. Whether there was
    /// anything to do.
    pub fn go_on(&mut self, alloc: Global, world: &mut World) -> Result<bool> {
        if let Some(text) = self.oldest(alloc)? {
            world.told.push(text)?;
            self.told()?;
            return Ok(true);
        }
        if !self.inside.is_idle() {
            self.exchange(alloc, world)?;
            return Ok(true);
        }
        if self.inside.serial() > REQUESTS {
            return Ok(false);
        }
        self.ask()?;
        Ok(true)
    }

    /// What a crash now leaves on its disk.
    pub fn left(self, alloc: Global) -> Result<Vec<u8>> {
        let disk = self.into_inside().into_disk();
        Ok(Vec::from_slice(alloc, disk.left())?)
    }
}
