//! The requests worked off, with one crash or none.
use crate::fault::{Fault, Result};
use crate::records::records_of;
use crate::remembered::asker::Asker;
use crate::remembered::world::World;
use node_journal::JournalFault;
use std::alloc::Global;

/// More moves than all requests need.
const MOVES: u8 = 64;

/// What came of a run: how many records were left when the client was opened again, if it was; the outcomes that
/// were told, in order; and what is left on the disk.
#[derive(Drop)]
pub struct WorkedOff {
    pub left: Option<usize>,
    pub told: Vec<String>,
    pub disk: Vec<u8>,
}

// Works the requests off, up to a crash of the disk. Whether it crashed.
fn crashes(alloc: Global, asker: &mut Asker, world: &mut World) -> Result<bool> {
    for _ in 0..MOVES {
        match asker.go_on(alloc, world) {
            Ok(true) => {}
            Ok(false) => return Ok(false),
            Err(Fault::Journal(JournalFault::Disk(_))) => return Ok(true),
            Err(fault) => return Err(fault),
        }
    }
    Err(Fault::Unknown)
}

fn worked_off(alloc: Global, asker: Asker, world: World, left: Option<usize>) -> Result<WorkedOff> {
    Ok(WorkedOff {
        left,
        told: world.told,
        disk: asker.left(alloc)?,
    })
}

fn run_from(alloc: Global, mut asker: Asker) -> Result<WorkedOff> {
    let mut world = World::open(alloc)?;
    if !crashes(alloc, &mut asker, &mut world)? {
        return worked_off(alloc, asker, world, None);
    }
    // The client is opened again from what is left, and goes on at the same servers.
    let disk = asker.left(alloc)?;
    let left = records_of(alloc, &disk)?.len();
    let mut asker = Asker::reopen(alloc, &disk)?;
    if crashes(alloc, &mut asker, &mut world)? {
        return Err(Fault::Unknown);
    }
    worked_off(alloc, asker, world, Some(left))
}

/// All requests worked off by a client whose disk crashes at the call of this number, 0 for none, where so many bytes
/// of a write that isn't synced arrive. None where the client isn't made.
pub fn run(alloc: Global, failing: u64, arriving: &[u8]) -> Result<Option<WorkedOff>> {
    match Asker::create(alloc, failing, arriving) {
        Ok(asker) => Ok(Some(run_from(alloc, asker)?)),
        Err(Fault::Journal(JournalFault::Disk(_))) => Ok(None),
        Err(fault) => Err(fault),
    }
}
