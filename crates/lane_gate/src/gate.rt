//! The gate of a server.
ghost use Rattle.std.specs.Prelude.{◌≡◌, ◌+◌, ◌<◌, ◌≤◌, ◌^◌, ◌↔◌, IsOk, IfOk, OnOk, OnErr, length, slice_set};
ghost use Rattle.lane_gate.specs.Openings.{IsGateOpening};
ghost use Rattle.lane_gate.specs.Passing.{plain_ticketed};
ghost use Rattle.lane_gate.specs.Gates.{Passes, row_at, opened_gate, with_key, with_lease, with_statement};
ghost use Rattle.lane_gate.specs.Gates.{key_answer, lease_answer, statement_answer, row_statement_answer};
ghost use Rattle.lane_gate.specs.Gates.{note_answer, with_note};

use crate::fault::{GateFault, NotYours};
use crate::holder::{Holder, Lease};
use crate::note::Note;
use crate::opening::GateOpening;
use crate::passing::{Ticketed, passes_row};
use crate::row::GateRow;
use crate::statement::{Statement, StatementHash};
use crate::ticket::TicketHash;
use express_words::NoMemory;
use std::alloc::Global;
use std::marker::Model;

/// What stands in front of a server's core: a row a lane, by which it hands a frame on or refuses it. Its
/// memory is taken when it is opened.
#[derive(Drop)]
pub struct LaneGate {
    rows: Vec<GateRow>,
    leases: u64,
}

impl Model for LaneGate {
    ghost use Rattle.std.specs.Prelude.{◌≤◌, length};
    ghost use Rattle.lane_gate.specs.Gates.{GateState};

    ghost Value = { GateState };

    ghost view = { λ g. record { rows = g.rows.items; leases = g.leases } };

    ghost invariant = { λ g. length g.rows.items ≤ 256 };
}

// A statement of this serial is a row's next.
fn check_statement(row: &GateRow, serial: u32) -> Result<(), GateFault>
    ensures { result ≡ row_statement_answer row.now serial }
{
    if !row.holder.has_request(serial) {
        return Err(GateFault::NoRequest);
    }
    match row.statement {
        Some(noted) if serial <= noted.serial => Err(GateFault::HasStatement),
        _ => Ok(()),
    }
}

impl LaneGate {
    /// A gate in front of so many owners' lanes, from lane 0 on, and behind them so many of the strangers. No
    /// owner has a key yet, and no lane was leased.
    pub fn open(alloc: Global, opening: &GateOpening) -> Result<LaneGate, NoMemory>
        requires { IsGateOpening opening.now }
        ensures { IfOk result (λ gate. gate ≡ opened_gate opening.now.owners opening.now.strangers) }
    {
        let Ok(mut rows) = vec![in alloc; GateRow::KEYLESS; usize::from(opening.owners)] else {
            return Err(NoMemory);
        };
        let Ok(free) = vec![in alloc; GateRow::FREE; usize::from(opening.strangers)] else {
            return Err(NoMemory);
        };
        rows.extend_from_slice(&free)?;
        Ok(LaneGate { rows, leases: 0 })
    }

    /// The rows by their lanes, at most 256.
    pub fn rows(&self) -> &[GateRow]
        ensures rows { result.now ≡ self.now.rows }
        ensures few { length result.now ≤ 256 }
    {
        &self.rows
    }

    /// The lane's row; that of an owner without a key where there is no such lane.
    pub fn row(&self, lane: u16) -> GateRow
        ensures { result ≡ row_at self.now.rows lane }
    {
        match self.rows.get(usize::from(lane)) {
            Some(row) => *row,
            None => GateRow::KEYLESS,
        }
    }

    // Sets the lane's row, if there is such a lane.
    fn set(&mut self, lane: u16, row: GateRow)
        ensures rows { self.new.rows ≡ slice_set self.old.rows lane row }
        ensures leases { self.new.leases ≡ self.old.leases }
    {
        if let Some(place) = self.rows.get_mut(usize::from(lane)) {
            *place = row;
        }
    }

    /// Says whether a client's frame is handed on: its ticket is that of its lane and serial, and a proof
    /// names the statement that was noted for it. All else is refused in one way.
    pub fn pass(&self, sent: &Ticketed<'_>) -> Result<(), NotYours>
        ensures gated { IsOk result ↔ Passes self.now (plain_ticketed sent.now) }
    {
        let row = self.row(sent.frame.lane);
        if passes_row(&row, sent) {
            Ok(())
        } else {
            Err(NotYours)
        }
    }

    // Gives the owner of a lane this key, by its hash, in place of the one before.
    fn give_key(&mut self, lane: u16, hash: TicketHash) -> Result<(), GateFault>
        ensures answer { result ≡ key_answer self.old lane }
        ensures given { OnOk result (self.new ≡ with_key self.old lane hash) }
        ensures stays { OnErr result (self.new ≡ self.old) }
    {
        let row = self.row(lane);
        let is_there = usize::from(lane) < self.rows.len();
        if !is_there || !row.holder.is_owners() {
            return Err(GateFault::NotOwners);
        }
        self.set(
            lane,
            GateRow {
                holder: Holder::Owner(hash),
                statement: row.statement,
            },
        );
        Ok(())
    }

    // Whether a strangers' lane takes a lease of this serial.
    fn check_lease(&self, lane: u16, serial: u32) -> Result<(), GateFault>
        ensures { result ≡ lease_answer self.now lane serial }
    {
        let Some(last) = self.row(lane).holder.last_serial() else {
            return Err(GateFault::NotStrangers);
        };
        if serial <= last {
            return Err(GateFault::HasLease);
        }
        if self.leases == u64::MAX {
            return Err(GateFault::NoNumber);
        }
        Ok(())
    }

    // Leases a serial of a strangers' lane, above its last, to the ticket of this hash.
    fn lease(&mut self, lane: u16, serial: u32, hash: TicketHash) -> Result<(), GateFault>
        ensures answer { result ≡ lease_answer self.old lane serial }
        ensures leased { OnOk result (self.new ≡ with_lease self.old lane serial hash) }
        ensures stays { OnErr result (self.new ≡ self.old) }
    {
        self.check_lease(lane, serial)?;
        self.leases += 1;
        let lease = Lease {
            serial,
            hash,
            number: self.leases,
        };
        let statement = self.row(lane).statement;
        self.set(
            lane,
            GateRow {
                holder: Holder::Leased(lease),
                statement,
            },
        );
        Ok(())
    }

    // Notes the statement of a write that was given challenges, one a serial.
    fn take_statement(
        &mut self,
        lane: u16,
        serial: u32,
        hash: StatementHash,
    ) -> Result<(), GateFault>
        ensures answer { result ≡ statement_answer self.old lane serial }
        ensures given { OnOk result (self.new ≡ with_statement self.old lane serial hash) }
        ensures stays { OnErr result (self.new ≡ self.old) }
    {
        let row = self.row(lane);
        check_statement(&row, serial)?;
        self.set(
            lane,
            GateRow {
                holder: row.holder,
                statement: Some(Statement { serial, hash }),
            },
        );
        Ok(())
    }

    /// Takes a note, or says why not and changes nothing. An owner's lane takes any key, in place of the one
    /// before; a request one statement, above that of the request before; and a strangers' lane a lease of a
    /// serial above its last.
    pub fn note(&mut self, note: &Note) -> Result<(), GateFault>
        ensures answer { result ≡ note_answer self.old note.now }
        ensures taken { OnOk result (self.new ≡ with_note self.old note.now) }
        ensures stays { OnErr result (self.new ≡ self.old) }
    {
        match *note {
            Note::Key { lane, hash } => self.give_key(lane, hash),
            Note::Statement { lane, serial, hash } => self.take_statement(lane, serial, hash),
            Note::Lease { lane, serial, hash } => self.lease(lane, serial, hash),
        }
    }
}
