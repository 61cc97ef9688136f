//! The hashes of a ticket and of a statement as another program computes them, and the texts of faults.
use crate::told::is_told;
use lane_gate::{GateFault, NotYours, StatementHash, Ticket};
use lane_leases::UsedUp;
use std::alloc::Global;
use std::test::Fail;

// By Python's hashlib, of sixteen bytes 7.
const HASH_OF_SEVENS: [u8; 32] = [
    0xd7, 0x61, 0xd4, 0x06, 0xaf, 0x2a, 0x4a, 0x5a, 0x15, 0xf6, 0x7c, 0x92, 0x43, 0x78, 0xed, 0x88,
    0xd1, 0xf8, 0x5c, 0x13, 0xf1, 0xa3, 0x7f, 0xc7, 0x36, 0x6f, 0x59, 0x78, 0x9b, 0x3b, 0xcd, 0x65,
];

#[test]
fn a_ticket_is_known_by_its_sha_256(rt: HostRuntime) {
    assert!(rt; Ticket([7; 16]).hash().0 == HASH_OF_SEVENS);
}

// By Python's hashlib, of thirty-two bytes 7 and then the bytes 1 to 4.
const HASH_OF_STATEMENT: [u8; 32] = [
    0x6d, 0x54, 0xba, 0xe4, 0xec, 0xda, 0x2f, 0x3e, 0x9c, 0x64, 0x91, 0xca, 0x7a, 0xe4, 0xf9, 0xd8,
    0x81, 0x83, 0xdb, 0x94, 0xe2, 0xf9, 0xef, 0x34, 0xdb, 0xf2, 0xe5, 0x49, 0x85, 0xa5, 0xc6, 0x60,
];

#[test]
fn a_statement_is_known_by_its_keys_and_parts_sha_256(rt: HostRuntime) {
    assert!(rt; StatementHash::of(&[7; 32], &[1, 2, 3, 4]).0 == HASH_OF_STATEMENT);
}

const FAULTS: [GateFault; 6] = [
    GateFault::NotOwners,
    GateFault::NotStrangers,
    GateFault::HasLease,
    GateFault::NoRequest,
    GateFault::HasStatement,
    GateFault::NoNumber,
];

fn faults_told(alloc: Global) -> Result<String, Fail> {
    let mut told = String::new(alloc);
    for fault in FAULTS {
        write!(&mut told, "{fault}, ")?;
    }
    write!(&mut told, "{}, {}", NotYours, UsedUp)?;
    Ok(told)
}

#[test]
fn faults_have_their_texts(rt: HostRuntime) -> Result<(), Fail> {
    is_told(
        faults_told(rt.alloc()),
        "not an owner's lane, not a strangers' lane, serial leased, no such request, serial has a statement, \
         no lease number, not yours, leases used up",
    )
}
