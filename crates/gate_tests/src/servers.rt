//! Gated servers that their records give: what a log says of a lane, and what the core behind the gate took.
ghost use Rattle.std.specs.Prelude.{◌≤◌, length};

use crate::told::is_told;
use express_words::{ProofShare, Role, Settings};
use frame_rules::{Body, Frame};
use gated_servers::{GatedHelper, GatedLeader, GatedOpening};
use kept_machine::{Kept, Machine};
use lane_gate::{GateOpening, Note, StatementHash, Ticket, Ticketed};
use lane_leases::{Ask, End};
use node_journal::MemoryDisk;
use node_restart::Opening;
use server_boxes::ChallengedWrite;
use std::alloc::Global;
use std::test::Fail;

const LIMIT: u64 = 8192;

const SHARE: ProofShare = ProofShare {
    u: 0,
    v: 0,
    h: [0; 5],
    a: 0,
    b: 0,
    c: 0,
};

// Two lanes, an owner's and a stranger's, one box, and messages of 16 bytes.
fn opening(role: Role) -> Result<GatedOpening, Fail> {
    let Some(settings) = Settings::new(16, 1, 2, 1) else {
        return Err(Fail::new("settings"));
    };
    let server = Opening {
        role,
        settings,
        seed: [5; 32],
    };
    let gate = GateOpening {
        owners: 1,
        strangers: 1,
    };
    Ok(GatedOpening { server, gate })
}

// Adds a record to the bytes of a journal.
fn add(journal: &mut Vec<u8>, bytes: &[u8]) -> Result<(), Fail>
    requires { length bytes.now ≤ 100 }
{
    journal.push(1)?;
    journal.extend_from_slice(&(bytes.len() as u32).to_be_bytes())?;
    journal.extend_from_slice(bytes)?;
    Ok(())
}

// Adds a frame of a sender, 1 a client and 2 the other server: kind, lane 1 and serial, link number, and body.
fn add_frame(
    bytes: &mut Vec<u8>,
    sender: u8,
    kind: u8,
    serial: u8,
    link: u8,
    body: &[u8],
) -> Result<(), Fail>
    requires { length body.now ≤ 4096 }
{
    bytes.push(1)?;
    bytes.extend_from_slice(&(body.len() as u32 + 21).to_be_bytes())?;
    bytes.push(sender)?;
    bytes.extend_from_slice(&(body.len() as u32 + 16).to_be_bytes())?;
    bytes.extend_from_slice(&[1, kind, 0, 1, 0, 0, 0, serial, 0, 0, 0, 0, 0, 0, 0, link])?;
    bytes.extend_from_slice(body)?;
    Ok(())
}

// A proof of lane 1 and serial 1 that names the statement of a write, with the stranger's ticket.
fn proof_of(write: &ChallengedWrite<'_>) -> Ticketed<'static> {
    Ticketed {
        ticket: Ticket([8; 16]),
        statement: Some(StatementHash::of(&write.ckey, write.part)),
        frame: Frame {
            lane: 1,
            serial: 1,
            link: 0,
            body: Body::Proof(SHARE),
        },
    }
}

// The log of a helper: serial 1 of lane 1 is leased, a deposit of this serial came, and the write of it was begun.
fn helper_log(alloc: Global, serial: u8) -> Result<Vec<u8>, Fail> {
    let mut bytes = Vec::new(alloc);
    add(&mut bytes, &opening(Role::Helper)?.record())?;
    let lease = Note::Lease {
        lane: 1,
        serial: 1,
        hash: Ticket([8; 16]).hash(),
    };
    add(&mut bytes, &lease.record())?;
    add_frame(&mut bytes, 1, 1, serial, 0, &[2; 17])?;
    add_frame(&mut bytes, 2, 11, serial, 1, &[0; 2112])?;
    bytes.push(0)?;
    Ok(bytes)
}

/// What is shown of a machine that a log gave.
trait Shown: Machine {
    fn show(&self, told: &mut String) -> Result<(), Fail>;
}

impl Shown for GatedHelper {
    // Whether a proof of the write that waits for one on lane 1 passes.
    fn show(&self, told: &mut String) -> Result<(), Fail> {
        let Some(write) = self.helper.challenged(1) else {
            told.push_str("nothing begun")?;
            return Ok(());
        };
        write!(told, "serial {} waits for its proof, ", write.serial)?;
        match self.pass(&proof_of(&write)) {
            Ok(()) => told.push_str("which passes")?,
            Err(fault) => write!(told, "{fault}")?,
        }
        Ok(())
    }
}

impl Shown for GatedLeader {
    // How the requests of two tickets ended.
    fn show(&self, told: &mut String) -> Result<(), Fail> {
        for ticket in [7u8, 8] {
            match self.leases.ended(&Ticket([ticket; 16]).hash()) {
                Some(End::Written) => write!(told, "{ticket} written, ")?,
                Some(End::NotWritten) => write!(told, "{ticket} not written, ")?,
                None => write!(told, "{ticket} under way, ")?,
            }
        }
        Ok(())
    }
}

// What the machine shows that these bytes of a disk give.
fn show_reopened<M: Shown>(alloc: Global, bytes: &[u8], told: &mut String) -> Result<(), Fail> {
    let disk = MemoryDisk::new(alloc, bytes, &[], 16, 64, &[])?;
    match Kept::<M, MemoryDisk>::reopen(alloc, disk, LIMIT) {
        Ok(kept) => kept.machine().show(told)?,
        Err((fault, _disk)) => write!(told, "{fault}")?,
    }
    Ok(())
}

fn begun_told(alloc: Global, serial: u8) -> Result<String, Fail> {
    let mut told = String::new(alloc);
    let bytes = helper_log(alloc, serial)?;
    show_reopened::<GatedHelper>(alloc, &bytes, &mut told)?;
    Ok(told)
}

#[test]
fn a_helper_that_is_opened_again_has_the_statement(rt: HostRuntime) -> Result<(), Fail> {
    is_told(
        begun_told(rt.alloc(), 1),
        "serial 1 waits for its proof, which passes",
    )
}

#[test]
fn a_serial_without_a_lease_is_not_handed_on(rt: HostRuntime) -> Result<(), Fail> {
    is_told(begun_told(rt.alloc(), 2), "nothing begun")
}

// The log of a leader with one strangers' lane, and two asks for it.
fn leader_log(alloc: Global) -> Result<Vec<u8>, Fail> {
    let mut bytes = Vec::new(alloc);
    add(&mut bytes, &opening(Role::Leader)?.record())?;
    for ticket in [7u8, 8] {
        let ask = Ask {
            own: Ticket([ticket; 16]).hash(),
            helper: Ticket([9; 16]).hash(),
        };
        add(&mut bytes, &ask.record())?;
    }
    bytes.push(0)?;
    Ok(bytes)
}

fn leases_told(alloc: Global) -> Result<String, Fail> {
    let mut told = String::new(alloc);
    let bytes = leader_log(alloc)?;
    show_reopened::<GatedLeader>(alloc, &bytes, &mut told)?;
    Ok(told)
}

#[test]
fn a_lease_tells_how_the_one_before_ended(rt: HostRuntime) -> Result<(), Fail> {
    is_told(leases_told(rt.alloc()), "7 not written, 8 under way, ")
}
