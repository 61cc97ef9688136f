//! A proof at a gate: it passes with the statement that was noted for it, and with no other.
use crate::told::is_told;
use express_words::ProofShare;
use frame_rules::{Body, Frame};
use lane_gate::{GateOpening, LaneGate, Note, StatementHash, Ticket, Ticketed};
use std::alloc::Global;
use std::test::Fail;

const OPENING: GateOpening = GateOpening {
    owners: 1,
    strangers: 0,
};

const SHARE: ProofShare = ProofShare {
    u: 0,
    v: 0,
    h: [0; 5],
    a: 0,
    b: 0,
    c: 0,
};

// A proof of lane 0 and serial 1, with its owner's key.
fn proof(statement: Option<StatementHash>) -> Ticketed<'static> {
    Ticketed {
        ticket: Ticket([7; 16]),
        statement,
        frame: Frame {
            lane: 0,
            serial: 1,
            link: 0,
            body: Body::Proof(SHARE),
        },
    }
}

// Lane 0 has an owner, and its write of serial 1 the challenges of a key and a public part.
fn noted(alloc: Global) -> Result<LaneGate, Fail> {
    let mut gate = LaneGate::open(alloc, &OPENING)?;
    let owner = Note::Key {
        lane: 0,
        hash: Ticket([7; 16]).hash(),
    };
    gate.note(&owner)?;
    let statement = Note::Statement {
        lane: 0,
        serial: 1,
        hash: StatementHash::of(&[1; 32], &[2, 3]),
    };
    gate.note(&statement)?;
    Ok(gate)
}

fn proofs_told(alloc: Global) -> Result<String, Fail> {
    let mut told = String::new(alloc);
    let gate = noted(alloc)?;
    let named = [
        Some(StatementHash::of(&[1; 32], &[2, 3])),
        Some(StatementHash::of(&[4; 32], &[2, 3])),
        Some(StatementHash::of(&[1; 32], &[2, 4])),
        None,
    ];
    for statement in named {
        match gate.pass(&proof(statement)) {
            Ok(()) => write!(&mut told, "passes, ")?,
            Err(fault) => write!(&mut told, "{fault}, ")?,
        }
    }
    Ok(told)
}

#[test]
fn a_proof_passes_with_its_own_statement(rt: HostRuntime) -> Result<(), Fail> {
    is_told(
        proofs_told(rt.alloc()),
        "passes, not yours, not yours, not yours, ",
    )
}
