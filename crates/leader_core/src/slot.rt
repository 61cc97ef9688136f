//! What the leader holds of a lane.
ghost use Rattle.std.specs.Prelude.{◌≡◌, ◌+◌, ◌≤◌, ℕ, List, [], All, IsSomeAnd, option_map, replicate, take, IfOk, IfSome, IfErr, length};
ghost use Rattle.frame_rules.specs.Frames.{PlainFrame, plain_body, Challenge};
ghost use Rattle.frame_rules.specs.Whole.{IsAnswer};
ghost use Rattle.lane_table.specs.Gates.{opening_gate, closing_gate};
ghost use Rattle.server_boxes.specs.Challenged.{plain_challenged};
ghost use Rattle.server_boxes.specs.Held.{openings_of, write_in};
ghost use Rattle.step_rules.specs.Leader.{Leader, door, phase_of, row, idle, want_of, Auditing, Challenged as Challenges, Done, Settling, Waiting};
ghost use Rattle.step_rules.specs.LeaderClients.{again_at, new_at, submission_at, proof_at, proof_in};
ghost use Rattle.step_rules.specs.Boxes.{addresses_of};
ghost use Rattle.express_words.specs.Limits.{IsPart, levels_len};
ghost use Rattle.dpf_rules.specs.Evaluation.{prefix_count};
ghost use Rattle.leader_core.specs.Asked.{asked_with, IsAsked};
ghost use Rattle.leader_core.specs.Replies.{key_at, writing_at, auditing_at, settling_at};
ghost use Rattle.leader_core.specs.Saying.{said_in, IsSaid, TakesProofs, TakesProofsAt, TakesSubmissions, TakesSubmissionsAt};
ghost use Rattle.leader_core.specs.Challenged.{challenged_in};
ghost use Rattle.leader_core.specs.Standings.{standing_in};
ghost use Rattle.leader_core.specs.Slots.{kept_of, reply_in, row_in, rows_in, stage_in, BecomesSlot, IsLeaderSlot, StaysSlot};

use crate::asked::Asked;
use crate::said::SaidToClient;
use crate::standing::Standing;
use dpf_eval::Steps;
use express_words::{Closing, NoMemory, Openings, Refusal, Settings};
use frame_rules::Body;
use lane_table::{Gate, Row, Want, closing, opening, phase};
use server_boxes::{Begun, ChallengedWrite, Proof, Room, ServerBoxes};
use std::alloc::Global;
use std::sync::ledger::Ledger;

/// A reply that is given again to the same request. A message's shares lie in the slot.
#[derive(Clone, Copy)]
pub(crate) enum KeptReply {
    Registered(u32),
    Accepted,
    Message,
    Refused(Refusal),
}

/// How far a lane's request has come, with what is held for it. A number is that of the lane's outstanding command.
#[derive(Clone, Copy)]
pub(crate) enum LeaderStage {
    Idle,
    Waiting(u64, Asked),
    Challenged(Begun),
    Auditing(u64, Begun, Proof, Openings),
    Settling(u64, Begun, Closing, Closing),
    Done(Want, KeptReply),
}

/// A lane's request, with room for a write, and for both servers' masked shares of a message.
#[derive(Drop)]
pub(crate) struct LeaderSlot {
    pub(crate) serial: u32,
    pub(crate) stage: LeaderStage,
    pub(crate) room: Room,
    pub(crate) own: Vec<u8>,
    pub(crate) other: Vec<u8>,
}

/// That a client is refused.
pub(crate) fn refused(refusal: Refusal) -> SaidToClient<'static>
    ensures { result ≡ SaidToClient.Reply (Body.Refused refusal) }
{
    SaidToClient::Reply(Body::Refused(refusal))
}

impl LeaderSlot {
    /// How far the request has come, as the gates of a lane number it.
    fn phase(&self) -> u8
        ensures { result ≡ phase_of (stage_in self.now) }
    {
        match self.stage {
            LeaderStage::Idle => phase::IDLE,
            LeaderStage::Waiting(_, _) => phase::WAITING,
            LeaderStage::Challenged(_) => phase::CHALLENGED,
            LeaderStage::Auditing(_, _, _, _) => phase::AUDITING,
            LeaderStage::Settling(_, _, _, _) => phase::AUDITING,
            LeaderStage::Done(_, _) => phase::DONE,
        }
    }

    /// What the request asks for.
    fn want(&self) -> Want
        ensures { result ≡ want_of (stage_in self.now) }
    {
        match self.stage {
            LeaderStage::Idle => Want::Nothing,
            LeaderStage::Waiting(_, asked) => asked.want(),
            LeaderStage::Challenged(_) => Want::Write,
            LeaderStage::Auditing(_, _, _, _) => Want::Write,
            LeaderStage::Settling(_, _, _, _) => Want::Write,
            LeaderStage::Done(want, _) => want,
        }
    }

    /// What of the slot lets frames in.
    fn door(&self) -> Row
        ensures { result ≡ door (row_in self.now) }
    {
        Row {
            serial: self.serial,
            phase: self.phase(),
            want: self.want(),
        }
    }

    /// The reply that is kept; only a slot with a challenge or a finished request keeps one.
    pub(crate) fn kept(&self) -> Body<'_>
        ensures { plain_body result ≡ kept_of (stage_in self.now) }
    {
        match self.stage {
            LeaderStage::Challenged(begun) => {
                let ckey = begun.ckey;
                Body::Challenge { ckey }
            }
            LeaderStage::Done(_, KeptReply::Registered(box_number)) => Body::Registered {
                box_number,
            },
            LeaderStage::Done(_, KeptReply::Accepted) => Body::Accepted,
            LeaderStage::Done(_, KeptReply::Message) => Body::Message {
                zero: &self.own,
                one: &self.other,
            },
            LeaderStage::Done(_, KeptReply::Refused(refusal)) => Body::Refused(refusal),
            LeaderStage::Idle => Body::Accepted,
            LeaderStage::Waiting(_, _) => Body::Accepted,
            LeaderStage::Auditing(_, _, _, _) => Body::Accepted,
            LeaderStage::Settling(_, _, _, _) => Body::Accepted,
        }
    }

    /// What is said to the row's request where it comes again.
    #[tactic(auto, unfolding(step_rules::specs::LeaderClients::again_at))]
    fn again(&self) -> SaidToClient<'_>
        ensures turn { (a : Leader) (f : PlainFrame) → again_at a f (stage_in self.now) ≡ said_in a f result }
        ensures said { (width limit : ℕ) (addresses : List ℕ) → IsLeaderSlot width limit addresses self.now → IsSaid result }
    {
        match self.stage {
            LeaderStage::Idle => refused(Refusal::Phase(phase::IDLE)),
            LeaderStage::Waiting(number, _) => SaidToClient::Waiting(number),
            LeaderStage::Auditing(number, _, _, _) => SaidToClient::Waiting(number),
            LeaderStage::Settling(number, _, _, _) => SaidToClient::Waiting(number),
            LeaderStage::Challenged(_) => SaidToClient::Reply(self.kept()),
            LeaderStage::Done(_, _) => SaidToClient::Reply(self.kept()),
        }
    }

    /// What is said to a newer request: the row's own must be over, or wait for its writer.
    #[tactic(auto, unfolding(step_rules::specs::LeaderClients::new_at))]
    fn newer(&self) -> Option<SaidToClient<'static>>
        ensures turn { TakesSubmissions
            (λ a f asked named. new_at a f asked named (stage_in self.now)) result }
        ensures said { IfSome result IsSaid }
    {
        match self.stage {
            LeaderStage::Waiting(_, _) => Some(refused(Refusal::Phase(phase::WAITING))),
            LeaderStage::Auditing(_, _, _, _) => Some(refused(Refusal::Phase(phase::AUDITING))),
            LeaderStage::Settling(_, _, _, _) => Some(refused(Refusal::Phase(phase::AUDITING))),
            LeaderStage::Idle => None,
            LeaderStage::Challenged(_) => None,
            LeaderStage::Done(_, _) => None,
        }
    }

    /// What is said to a register, a write, a read or a retire of this serial by the lane's row; None where it is new.
    #[tactic(auto, unfolding(step_rules::specs::LeaderClients::submission_at))]
    pub(crate) fn submission(&self, serial: u32, want: Want) -> Option<SaidToClient<'_>>
        ensures turn { TakesSubmissionsAt self.now (λ a f asked named. submission_at a f asked named
            (opening_gate (door (row_in self.now)) serial want)) result }
        ensures said { (width limit : ℕ) (addresses : List ℕ) → IsLeaderSlot width limit addresses self.now
            → IfSome result IsSaid }
    {
        match opening(&self.door(), serial, want) {
            Gate::Stale(serial) => Some(refused(Refusal::Stale(serial))),
            Gate::Phase(phase) => Some(refused(Refusal::Phase(phase))),
            Gate::Same => Some(self.again()),
            Gate::New => self.newer(),
        }
    }

    /// The write that waits for a proof share, or what is said to its writer.
    #[tactic(auto, unfolding(step_rules::specs::LeaderClients::proof_in))]
    fn challenged(&self) -> Result<Begun, SaidToClient<'_>>
        ensures turn { TakesProofs self.now (λ a f share. proof_in a f share (stage_in self.now)) result }
        ensures said { (width limit : ℕ) (addresses : List ℕ) → IsLeaderSlot width limit addresses self.now
            → IfErr result IsSaid }
        ensures stage { IfOk result (λ b. self.now.stage ≡ LeaderStage.Challenged b) }
    {
        match self.stage {
            LeaderStage::Challenged(begun) => Ok(begun),
            LeaderStage::Idle => Err(refused(Refusal::Phase(phase::IDLE))),
            LeaderStage::Waiting(_, _) => Err(refused(Refusal::Phase(phase::WAITING))),
            LeaderStage::Auditing(number, _, _, _) => Err(SaidToClient::Waiting(number)),
            LeaderStage::Settling(number, _, _, _) => Err(SaidToClient::Waiting(number)),
            LeaderStage::Done(_, _) => Err(SaidToClient::Reply(self.kept())),
        }
    }

    /// The write of this serial that waits for a proof share, or what is said to its writer.
    #[tactic(auto, unfolding(step_rules::specs::LeaderClients::proof_at))]
    pub(crate) fn proof(&self, serial: u32) -> Result<Begun, SaidToClient<'_>>
        ensures turn { TakesProofsAt self.now
            (λ a f share. proof_at a f share (closing_gate (door (row_in self.now)) serial)) result }
        ensures said { (width limit : ℕ) (addresses : List ℕ) → IsLeaderSlot width limit addresses self.now
            → IfErr result IsSaid }
        ensures stage { IfOk result (λ b. self.now.stage ≡ LeaderStage.Challenged b) }
    {
        match closing(&self.door(), serial) {
            Gate::Stale(serial) => Err(refused(Refusal::Stale(serial))),
            Gate::Phase(phase) => Err(refused(Refusal::Phase(phase))),
            Gate::Same => self.challenged(),
            Gate::New => self.challenged(),
        }
    }

    /// A request of this serial begins: its first command has this number.
    pub(crate) fn wait(&mut self, serial: u32, number: u64, asked: Asked, part: &[u8])
        requires part { IsAsked (length self.old.own.items) asked part.now }
        requires room { length self.old.room.part.items ≡ levels_len + length self.old.own.items }
        ensures row { row_in self.new ≡ row serial (Waiting number (asked_with asked part.now)) }
        ensures is_slot { (addresses : List ℕ) → StaysSlot addresses self.old self.new }
    {
        match asked {
            Asked::Writing(_, _) => self.room.part.copy_from_slice(part),
            Asked::Registering(_, _) => {}
            Asked::Reading(_) => {}
            Asked::Retiring(_) => {}
        }
        self.serial = serial;
        self.stage = LeaderStage::Waiting(number, asked);
    }

    /// The audit of a write begins under this number: its leaves stand from now on. Gives what the leader opens.
    pub(crate) fn audit<L: Ledger>(
        &mut self,
        boxes: &mut ServerBoxes,
        number: u64,
        begun: &Begun,
        proof: &Proof,
        steps: &mut Steps<L>,
    ) -> Openings
        requires part { IsPart self.old.room.part.items }
        requires there { begun.now.count ≤ length boxes.old.boxes }
        requires leaves { begun.now.count ≤ length self.old.room.leaves.items }
        ensures opened { result
            ≡ openings_of 0 begun.now proof.now self.old.room (addresses_of boxes.old.boxes) }
        ensures row { row_in self.new ≡ row self.old.serial (Auditing number
            (write_in begun.now self.old.room.part.items) proof.now.share proof.now.sigma result) }
        ensures is_slot { StaysSlot (addresses_of boxes.old.boxes) self.old self.new }
        ensures steps { steps.new
            ≡ steps.old + prefix_count (take begun.now.count (addresses_of boxes.old.boxes)) }
        ensures same { boxes.new ≡ boxes.old }
    {
        let opened = boxes.open_write(0, begun, proof, &mut self.room, steps);
        self.stage = LeaderStage::Auditing(number, *begun, *proof, opened);
        opened
    }

    /// The write whose client was given challenges, and that waits for its proof.
    pub(crate) fn challenged_write(&self) -> Option<ChallengedWrite<'_>>
        ensures { option_map plain_challenged result ≡ challenged_in (row_in self.now) }
    {
        match self.stage {
            LeaderStage::Challenged(begun) => {
                let ckey = begun.ckey;
                Some(ChallengedWrite {
                    serial: self.serial,
                    ckey,
                    part: &self.room.part,
                })
            }
            LeaderStage::Idle => None,
            LeaderStage::Waiting(_, _) => None,
            LeaderStage::Auditing(_, _, _, _) => None,
            LeaderStage::Settling(_, _, _, _) => None,
            LeaderStage::Done(_, _) => None,
        }
    }

    /// How the lane stands.
    pub(crate) fn standing(&self) -> Standing
        ensures { result ≡ standing_in (row_in self.now) }
    {
        match self.stage {
            LeaderStage::Waiting(_, _) => Standing::Busy,
            LeaderStage::Auditing(_, _, _, _) => Standing::Busy,
            LeaderStage::Settling(_, _, _, _) => Standing::Busy,
            LeaderStage::Done(Want::Write, KeptReply::Accepted) => Standing::Written(self.serial),
            LeaderStage::Done(_, _) => Standing::Other,
            LeaderStage::Idle => Standing::Other,
            LeaderStage::Challenged(_) => Standing::Other,
        }
    }

    /// The key that a register brought.
    pub(crate) fn key(&self) -> Option<[u8; 32]>
        ensures { result ≡ key_at self.now.stage }
    {
        match self.stage {
            LeaderStage::Waiting(_, Asked::Registering(_, key)) => Some(key),
            LeaderStage::Waiting(_, Asked::Writing(_, _)) => None,
            LeaderStage::Waiting(_, Asked::Reading(_)) => None,
            LeaderStage::Waiting(_, Asked::Retiring(_)) => None,
            LeaderStage::Idle => None,
            LeaderStage::Challenged(_) => None,
            LeaderStage::Auditing(_, _, _, _) => None,
            LeaderStage::Settling(_, _, _, _) => None,
            LeaderStage::Done(_, _) => None,
        }
    }

    /// The root of a write that is to begin, and the leader's draw.
    pub(crate) fn writing(&self) -> Option<(u128, [u8; 32])>
        ensures { result ≡ writing_at self.now.stage }
    {
        match self.stage {
            LeaderStage::Waiting(_, Asked::Writing(root, draw)) => Some((root, draw)),
            LeaderStage::Waiting(_, Asked::Registering(_, _)) => None,
            LeaderStage::Waiting(_, Asked::Reading(_)) => None,
            LeaderStage::Waiting(_, Asked::Retiring(_)) => None,
            LeaderStage::Idle => None,
            LeaderStage::Challenged(_) => None,
            LeaderStage::Auditing(_, _, _, _) => None,
            LeaderStage::Settling(_, _, _, _) => None,
            LeaderStage::Done(_, _) => None,
        }
    }

    /// The write whose audit is outstanding, its proof, and what the leader opened.
    pub(crate) fn auditing(&self) -> Option<(Begun, Proof, Openings)>
        ensures { result ≡ auditing_at self.now.stage }
    {
        match self.stage {
            LeaderStage::Auditing(_, begun, proof, opened) => Some((begun, proof, opened)),
            LeaderStage::Waiting(_, _) => None,
            LeaderStage::Idle => None,
            LeaderStage::Challenged(_) => None,
            LeaderStage::Settling(_, _, _, _) => None,
            LeaderStage::Done(_, _) => None,
        }
    }

    /// The write whose settle is outstanding, and both servers' closings, the leader's first.
    pub(crate) fn settling(&self) -> Option<(Begun, Closing, Closing)>
        ensures { result ≡ settling_at self.now.stage }
    {
        match self.stage {
            LeaderStage::Settling(_, begun, own, other) => Some((begun, own, other)),
            LeaderStage::Waiting(_, _) => None,
            LeaderStage::Idle => None,
            LeaderStage::Challenged(_) => None,
            LeaderStage::Auditing(_, _, _, _) => None,
            LeaderStage::Done(_, _) => None,
        }
    }

    /// A write has begun: its writer has the key of its challenges.
    pub(crate) fn challenge(&mut self, serial: u32, begun: Begun)
        ensures row { row_in self.new
            ≡ row serial (Challenges (write_in begun self.old.room.part.items) (Challenge begun.ckey)) }
        ensures is_slot { (addresses : List ℕ) → begun.count ≤ length addresses
            → StaysSlot addresses self.old self.new }
    {
        self.serial = serial;
        self.stage = LeaderStage::Challenged(begun);
    }

    /// The audit of a write is answered: its settle has this number.
    pub(crate) fn settle(
        &mut self,
        serial: u32,
        number: u64,
        begun: Begun,
        both: (Closing, Closing),
    )
        ensures row { row_in self.new
            ≡ row serial (Settling number (write_in begun self.old.room.part.items) both.0 both.1) }
        ensures is_slot { (addresses : List ℕ) → IsSomeAnd (auditing_at self.old.stage) (λ x. x.0 ≡ begun)
            → StaysSlot addresses self.old self.new }
    {
        self.serial = serial;
        self.stage = LeaderStage::Settling(number, begun, both.0, both.1);
    }

    /// The request of this serial is done, with a reply that is kept.
    pub(crate) fn finish(&mut self, serial: u32, want: Want, kept: KeptReply)
        ensures row { row_in self.new ≡ row serial (Done want (reply_in kept self.old)) }
        ensures is_slot { (addresses : List ℕ) → IsAnswer (reply_in kept self.old)
            → BecomesSlot addresses self.old self.new }
    {
        self.serial = serial;
        self.stage = LeaderStage::Done(want, kept);
    }
}

/// A slot for each lane, of which no frame has come.
pub(crate) fn idle_slots(alloc: Global, settings: &Settings) -> Result<Vec<LeaderSlot>, NoMemory>
    ensures rows { IfOk result (λ slots. rows_in slots.items ≡ replicate settings.now.lanes idle) }
    ensures slots { IfOk result
        (λ slots. All (IsLeaderSlot settings.now.width settings.now.boxes []) slots.items) }
{
    let Ok(mut slots) = Vec::with_capacity(alloc, usize::from(settings.lanes)) else {
        return Err(NoMemory);
    };
    for _ in 0..settings.lanes {
        let slot = idle_slot(alloc, settings.width, settings.boxes)?;
        if slots.push(slot).is_err() {
            return Err(NoMemory);
        }
    }
    Ok(slots)
}

fn idle_slot(alloc: Global, width: u32, boxes: u32) -> Result<LeaderSlot, NoMemory>
    ensures row { IfOk result (λ s. row_in s ≡ idle) }
    ensures slot { IfOk result (IsLeaderSlot width boxes []) }
{
    let room = Room::open(alloc, width, boxes)?;
    let Ok(own) = vec![in alloc; 0u8; width as usize] else {
        return Err(NoMemory);
    };
    let Ok(other) = vec![in alloc; 0u8; width as usize] else {
        return Err(NoMemory);
    };
    Ok(LeaderSlot {
        serial: 0,
        stage: LeaderStage::Idle,
        room,
        own,
        other,
    })
}
