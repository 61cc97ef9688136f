//! A leader's gate that is kept: leases, an end, and the same gate from its disk.
use crate::told::is_told;
use express_words::NoMemory;
use frame_rules::{Body, Frame};
use kept_machine::{Kept, take};
use lane_gate::{GateOpening, Ticket, TicketHash, Ticketed};
use lane_leases::{Ask, End, Ended, LaneLeases};
use node_journal::MemoryDisk;
use std::alloc::Global;
use std::test::Fail;

const LIMIT: u64 = 1024;

const OPENING: GateOpening = GateOpening {
    owners: 1,
    strangers: 2,
};

const HELPERS: TicketHash = TicketHash([9; 32]);

fn disk_of(alloc: Global, bytes: &[u8]) -> Result<MemoryDisk, NoMemory> {
    MemoryDisk::new(alloc, bytes, &[], 1024, 1024, &[])
}

// A frame of lane 1 with serial 1 that asks for what a box holds, with the ticket of this byte.
fn reading(ticket: u8) -> Ticketed<'static> {
    Ticketed {
        ticket: Ticket([ticket; 16]),
        statement: None,
        frame: Frame {
            lane: 1,
            serial: 1,
            link: 0,
            body: Body::Read {
                box_number: 0,
                token: 0,
            },
        },
    }
}

// Which of two tickets passes, and how the first one's request ended.
fn gate_told(leases: &LaneLeases, told: &mut String) -> Result<(), Fail> {
    for ticket in [7u8, 8] {
        match leases.pass(&reading(ticket)) {
            Ok(()) => write!(told, "{ticket} passes, ")?,
            Err(fault) => write!(told, "{ticket} {fault}, ")?,
        }
    }
    match leases.ended(&Ticket([7; 16]).hash()) {
        Some(End::Written) => write!(told, "written. ")?,
        Some(End::NotWritten) => write!(told, "not written. ")?,
        None => write!(told, "unknown. ")?,
    }
    Ok(())
}

// Leases for three tickets, of which the third gets the lane of the first.
fn leases_told(kept: &mut Kept<LaneLeases, MemoryDisk>, told: &mut String) -> Result<(), Fail> {
    for ticket in [7u8, 8] {
        let ask = Ask {
            own: Ticket([ticket; 16]).hash(),
            helper: HELPERS,
        };
        match take(kept, &ask, &mut [])? {
            Ok(lease) => write!(told, "lane {} serial {}, ", lease.lane, lease.serial)?,
            Err(fault) => write!(told, "{fault}, ")?,
        }
    }
    Ok(())
}

fn kept_told(alloc: Global) -> Result<String, Fail> {
    let mut told = String::new(alloc);
    let disk = disk_of(alloc, &[])?;
    match Kept::<LaneLeases, MemoryDisk>::create(alloc, &OPENING.record(), disk, LIMIT) {
        Ok(kept) => {
            let mut kept = kept;
            leases_told(&mut kept, &mut told)?;
            gate_told(kept.machine(), &mut told)?;
            let ended = Ended {
                hash: Ticket([7; 16]).hash(),
                end: End::Written,
            };
            take(&mut kept, &ended, &mut [])?;
            let disk = kept.into_disk();
            reopened_told(alloc, disk.bytes(), &mut told)?;
        }
        Err((fault, _disk)) => write!(&mut told, "{fault}")?,
    }
    Ok(told)
}

// The gate that these bytes of a disk give, which leases the lane of the first ticket again.
fn reopened_told(alloc: Global, bytes: &[u8], told: &mut String) -> Result<(), Fail> {
    let disk = disk_of(alloc, bytes)?;
    match Kept::<LaneLeases, MemoryDisk>::reopen(alloc, disk, LIMIT) {
        Ok(kept) => {
            let mut kept = kept;
            gate_told(kept.machine(), told)?;
            leases_told(&mut kept, told)?;
        }
        Err((fault, _disk)) => write!(told, "{fault}")?,
    }
    Ok(())
}

#[test]
fn a_leaders_gate_stands_where_it_stood(rt: HostRuntime) -> Result<(), Fail> {
    is_told(
        kept_told(rt.alloc()),
        "lane 1 serial 1, lane 2 serial 1, 7 passes, 8 not yours, unknown. \
         7 passes, 8 not yours, written. lane 1 serial 2, lane 2 serial 2, ",
    )
}
