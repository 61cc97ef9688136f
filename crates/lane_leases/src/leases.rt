//! The gate of the leader.
ghost use Rattle.std.specs.Prelude.{◌≡◌, ◌↔◌, IsOk, IsNone, IsSome, IfOk, IfSome, OnOk, OnErr};
ghost use Rattle.lane_gate.specs.Gates.{Passes, note_answer, row_at, with_note};
ghost use Rattle.lane_gate.specs.Holders.{last_serial};
ghost use Rattle.lane_gate.specs.Openings.{IsGateOpening};
ghost use Rattle.lane_gate.specs.Passing.{plain_ticketed};
ghost use Rattle.lane_leases.specs.Choosing.{longest_of};
ghost use Rattle.lane_leases.specs.Ends.{IsEndOf, last_end};
ghost use Rattle.lane_leases.specs.Leases.{IsLeased, IsNext, IsOfRow, IsUsedUp};
ghost use Rattle.lane_leases.specs.Leases.{opened_leases, with_end, with_gate};
ghost use Rattle.lane_leases.specs.Resting.{rested, HasRestedLongest, NoneRests};

use crate::ask::{Announced, Ask};
use crate::choosing::longest_rested;
use crate::ended::{ENDS, End, Ended, end_of};
use crate::fault::UsedUp;
use circular_buffer::HeapCircularBuffer;
use express_words::NoMemory;
use lane_gate::{
    GateFault, GateOpening, GateRow, Holder, LaneGate, NotYours, Note, TicketHash, Ticketed,
};
use std::alloc::Global;
use std::marker::Model;

/// The gate of the leader, which leases the strangers' lanes, and how the last requests ended. Its memory is
/// taken when it is opened.
#[derive(Drop)]
pub struct LaneLeases {
    gate: LaneGate,
    ends: HeapCircularBuffer<Ended>,
}

impl Model for LaneLeases {
    ghost use Rattle.std.specs.Prelude.{◌≡◌};
    ghost use Rattle.lane_leases.specs.Leases.{LeasesState};

    ghost Value = { LeasesState };

    ghost view = { λ l. record { gate = l.gate; ends = l.ends.items } };

    ghost invariant = { λ l. l.ends.capacity ≡ 4096 };
}

// The serial behind the last one of a lane that has one left.
fn next_serial(row: &GateRow) -> u32
    requires { IsSome (rested row.now) }
    ensures { IsNext (last_serial row.now.holder) result }
{
    match &row.holder {
        Holder::Free => 1,
        Holder::Leased(lease) => lease.serial + 1,
        Holder::Keyless | Holder::Owner(_) => unreachable!(),
    }
}

impl LaneLeases {
    /// A gate that was never leased, and no end.
    pub fn open(alloc: Global, opening: &GateOpening) -> Result<LaneLeases, NoMemory>
        requires { IsGateOpening opening.now }
        ensures { IfOk result (λ leases. leases ≡ opened_leases opening.now.owners opening.now.strangers) }
    {
        let gate = LaneGate::open(alloc, opening)?;
        match HeapCircularBuffer::with_capacity(alloc, ENDS) {
            Ok(ends) => Ok(LaneLeases { gate, ends }),
            Err(_) => Err(NoMemory),
        }
    }

    /// Says whether a client's frame is handed on, as the gate does.
    pub fn pass(&self, sent: &Ticketed<'_>) -> Result<(), NotYours>
        ensures gated { IsOk result ↔ Passes self.now.gate (plain_ticketed sent.now) }
    {
        self.gate.pass(sent)
    }

    /// Takes a note of a row, a key or a statement, as the gate does.
    pub fn note(&mut self, note: &Note) -> Result<(), GateFault>
        requires { IsOfRow note.now }
        ensures answer { result ≡ note_answer self.old.gate note.now }
        ensures taken { OnOk result (self.new ≡ with_gate self.old (with_note self.old.gate note.now)) }
        ensures stays { OnErr result (self.new ≡ self.old) }
    {
        self.gate.note(note)
    }

    /// The gate.
    pub fn gate(&self) -> &LaneGate
        ensures { result.now ≡ self.now.gate }
    {
        &self.gate
    }

    /// The lane of the strangers that the next lease is of: the one that has rested longest. None where no lane has a
    /// serial left.
    pub fn next_lane(&self) -> Option<u16>
        ensures some { IfSome result (HasRestedLongest self.now.gate.rows) }
        ensures none { IsNone result → NoneRests self.now.gate.rows }
        ensures is { result ≡ longest_of self.now.gate.rows }
    {
        longest_rested(self.gate.rows())
    }

    /// The lane's row; that of an owner without a key where there is no such lane.
    pub fn row(&self, lane: u16) -> GateRow
        ensures { result ≡ row_at self.now.gate.rows lane }
    {
        self.gate.row(lane)
    }

    /// Leases a lane of the strangers to the ticket of the ask's own hash: the one that has rested longest, with
    /// its next serial. What is told is for the helper, with the hash of the helper's ticket.
    pub fn lease(&mut self, ask: &Ask) -> Result<Announced, UsedUp>
        ensures leased { IfOk result (λ lease. IsLeased self.old ask.now lease self.new) }
        ensures used_up { OnErr result (IsUsedUp self.old.gate) }
        ensures stays { OnErr result (self.new ≡ self.old) }
    {
        let Some(lane) = self.next_lane() else {
            return Err(UsedUp);
        };
        let serial = next_serial(&self.gate.row(lane));
        let note = Note::Lease {
            lane,
            serial,
            hash: ask.own,
        };
        match self.gate.note(&note) {
            Ok(()) => Ok(Announced {
                lane,
                serial,
                hash: ask.helper,
            }),
            Err(_) => Err(UsedUp),
        }
    }

    /// Remembers how a request ended, in place of the oldest end where 4,096 are remembered.
    pub fn end(&mut self, ended: Ended)
        ensures { self.new ≡ with_end self.old ended }
    {
        self.ends.push_back(ended);
    }

    /// How the request of this ticket ended, if that is remembered: the last of its ends.
    pub fn ended(&self, hash: &TicketHash) -> Option<End>
        ensures last { IsEndOf self.now.ends hash.now result }
        ensures is { result ≡ last_end self.now.ends hash.now }
    {
        end_of(&self.ends, hash)
    }
}
