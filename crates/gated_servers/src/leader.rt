//! A leader behind its gate.
ghost use Rattle.std.specs.Prelude.{◌≡◌, ◌↔◌, IsOk, IfOk, OnErr, true};
ghost use Rattle.frame_rules.specs.Room.{HasRoom};
ghost use Rattle.frame_rules.specs.Whole.{whole};
ghost use Rattle.step_rules.specs.LeaderClients.{on_client};
ghost use Rattle.step_rules.specs.LeaderReplies.{on_reply_bytes};
ghost use Rattle.leader_core.specs.Turns.{DoesClient, DoesReply};
ghost use Rattle.lane_gate.specs.Gates.{Passes, note_answer};
ghost use Rattle.lane_gate.specs.Passing.{plain_ticketed};
ghost use Rattle.lane_leases.specs.Leases.{IsOfRow};
ghost use Rattle.gated_servers.specs.Frames.{is_frame, request_open};
ghost use Rattle.gated_servers.specs.Leaders.{TellsLease, ended_in, leader_acked, leader_asked, leader_heard, leader_noted, leader_took, with_ended};

use crate::opening::GatedOpening;
use crate::passing::{frame_lane, is_open};
use crate::told::statement_of;
use lane_gate::{GateFault, GateRow, Holder, NotYours, Note, Ticketed};
use lane_leases::{Announced, Ask, End, Ended, LaneLeases};
use leader_core::{Ack, Leader, Standing, Turn, hear_request};
use wire_frames::Received;

/// A leader, and the gate in front of it.
#[derive(Drop)]
pub struct GatedLeader {
    pub opening: GatedOpening,
    pub leader: Leader,
    pub leases: LaneLeases,
}

/// Why no lane is leased.
#[derive(Clone, Copy, Debug, PartialEq, Eq)]
pub enum NoLease {
    /// No strangers' lane has a serial left.
    UsedUp,
    /// What becomes of the last request of the lane that has rested longest isn't known yet.
    Busy,
}

// What became of the letter whose lease a lane has, by how the lane stands.
fn ended_in(row: &GateRow, standing: Standing) -> Option<Ended>
    ensures { result ≡ ended_in row.now.holder standing }
{
    match (row.holder, standing) {
        (Holder::Leased(lease), Standing::Written(serial)) if lease.serial == serial => Some(
            Ended {
                hash: lease.hash,
                end: End::Written,
            },
        ),
        (Holder::Leased(lease), _) => Some(Ended {
            hash: lease.hash,
            end: End::NotWritten,
        }),
        _ => None,
    }
}

impl GatedLeader {
    /// Says whether a client's frame is handed on, as the gate does.
    pub fn pass(&self, sent: &Ticketed<'_>) -> Result<(), NotYours>
        ensures gated { IsOk result ↔ Passes self.now.leases.gate (plain_ticketed sent.now) }
    {
        self.leases.pass(sent)
    }

    // The leader took a frame of this lane: the gate is told of a write that waits for its proof.
    fn tell(&mut self, lane: u16)
        ensures { self.new ≡ leader_took self.old lane self.old.leader }
    {
        if let Some(note) = statement_of(lane, self.leader.challenged(lane)) {
            let _ = self.leases.note(&note);
        }
    }

    /// Bytes of a client, which passed: the leader takes them, and writes to the front of `out`. Where they are no frame
    /// of a lane and serial of which somebody may still send frames, nothing changes.
    pub fn hear_client(&mut self, received: &Received<'_>, out: &mut [u8]) -> Result<Turn, NotYours>
        requires room { HasRoom out.old }
        ensures after { self.new ≡ leader_heard self.old received.now }
        ensures open { IsOk result ↔ (request_open self.old.leases.gate (whole received.now) ≡ true) }
        ensures does { IfOk result (λ turn. DoesClient self.old.leader received.now
            self.new.leader turn out.old out.new) }
        ensures silent { OnErr result (out.new ≡ out.old) }
    {
        let Some(lane) = is_open(self.leases.gate(), received) else {
            return Err(NotYours);
        };
        let turn = hear_request(&mut self.leader, received, out);
        self.tell(lane);
        Ok(turn)
    }

    /// Bytes of the helper: the leader takes one frame, and writes to the front of `out`. Of all else nothing changes.
    pub fn hear_link(&mut self, received: &Received<'_>, out: &mut [u8]) -> Result<Ack, NotYours>
        requires room { HasRoom out.old }
        ensures after { self.new ≡ leader_acked self.old received.now }
        ensures passed { IsOk result ↔ (is_frame (whole received.now) ≡ true) }
        ensures does { IfOk result (λ ack. DoesReply self.old.leader received.now
            self.new.leader ack out.old out.new) }
        ensures silent { OnErr result (out.new ≡ out.old) }
    {
        let Some(lane) = frame_lane(received) else {
            return Err(NotYours);
        };
        let ack = self.leader.hear_link_reply(received, out);
        self.tell(lane);
        Ok(ack)
    }

    /// Takes an owner's key, as the gate does.
    pub fn note(&mut self, note: &Note) -> Result<(), GateFault>
        requires { IsOfRow note.now }
        ensures answer { result ≡ note_answer self.old.leases.gate note.now }
        ensures after { self.new ≡ leader_noted self.old note.now }
    {
        self.leases.note(note)
    }

    /// Leases the strangers' lane that has rested longest to whoever asks, where nothing of it is under way, and
    /// remembers what became of the letter whose lease it had before.
    pub fn lease(&mut self, ask: &Ask) -> Result<Announced, NoLease>
        ensures told { TellsLease self.old ask.now result self.new }
        ensures after { self.new ≡ leader_asked self.old ask.now }
    {
        let Some(lane) = self.leases.next_lane() else {
            return Err(NoLease::UsedUp);
        };
        let standing = self.leader.standing(lane);
        if standing == Standing::Busy {
            return Err(NoLease::Busy);
        }
        let ended = ended_in(&self.leases.row(lane), standing);
        let Ok(lease) = self.leases.lease(ask) else {
            return Err(NoLease::UsedUp);
        };
        if let Some(ended) = ended {
            self.leases.end(ended);
        }
        Ok(lease)
    }
}
