//! What the helper holds of a lane.
ghost use Rattle.std.specs.Prelude.{◌≡◌, ◌+◌, ◌≤◌, ℕ, List, length, option_map, IfSome, [], All, IfOk, replicate};
ghost use Rattle.frame_rules.specs.Frames.{plain_body, Refused};
ghost use Rattle.server_boxes.specs.Challenged.{plain_challenged};
ghost use Rattle.server_boxes.specs.Held.{HasLeaves, write_in};
ghost use Rattle.step_rules.specs.Helper.{door, phase_of, want_of, idle, row, Done, Begun as Begins, Audited as Audits};
ghost use Rattle.step_rules.specs.HelperCommands.{stage_for, held_key, held_root, held_token, held_proof, held_closing};
ghost use Rattle.step_rules.specs.HelperClients.{deposit_row, proof_row, proof_in};
ghost use Rattle.helper_core.specs.Challenged.{challenged_in};
ghost use Rattle.helper_core.specs.Slots.{row_in, rows_in, stage_in, stage_with, BecomesSlot, IfSlot, IsHelperSlot, StaysSlot, TakesTurn};

use crate::taken::want_in;
use express_words::{Closing, NoMemory, ProofShare, Refusal, Settings};
use frame_rules::{Body, DepositBody};
use lane_table::{Gate, Row, Want, closing, opening, phase};
use server_boxes::{Begun, ChallengedWrite, Room};
use std::alloc::Global;

/// How far a lane's request has come, with what is held for it.
#[derive(Clone, Copy)]
pub(crate) enum HelperStage {
    Idle,
    Deposited(DepositBody),
    Begun(Begun),
    Proved(Begun, ProofShare),
    Audited(Begun, Closing),
    Done(Want),
}

/// A lane's request, with room for a write.
#[derive(Drop)]
pub(crate) struct HelperSlot {
    pub(crate) serial: u32,
    pub(crate) stage: HelperStage,
    pub(crate) room: Room,
}

fn refused(refusal: Refusal) -> Body<'static>
    ensures { plain_body result ≡ Refused refusal }
{
    Body::Refused(refusal)
}

impl HelperSlot {
    /// How far the request has come, as the gates of a lane number it.
    fn phase(&self) -> u8
        ensures { result ≡ phase_of (stage_in self.now) }
    {
        match self.stage {
            HelperStage::Idle => phase::IDLE,
            HelperStage::Deposited(_) => phase::DEPOSITED,
            HelperStage::Begun(_) => phase::BEGUN,
            HelperStage::Proved(_, _) => phase::PROVED,
            HelperStage::Audited(_, _) => phase::AUDITED,
            HelperStage::Done(_) => phase::DONE,
        }
    }

    /// What the request asks for.
    fn want(&self) -> Want
        ensures { result ≡ want_of (stage_in self.now) }
    {
        match self.stage {
            HelperStage::Idle => Want::Nothing,
            HelperStage::Deposited(held) => want_in(&held),
            HelperStage::Begun(_) => Want::Write,
            HelperStage::Proved(_, _) => Want::Write,
            HelperStage::Audited(_, _) => Want::Write,
            HelperStage::Done(want) => want,
        }
    }

    /// What of the slot lets frames in.
    fn door(&self) -> Row
        ensures { result ≡ door (row_in self.now) }
    {
        Row {
            serial: self.serial,
            phase: self.phase(),
            want: self.want(),
        }
    }

    /// The stage, where the slot's request has this serial.
    fn stage_for(&self, serial: u32) -> HelperStage
        ensures { stage_with result self.now.room.part.items ≡ stage_for (row_in self.now) serial }
    {
        if self.serial == serial {
            self.stage
        } else {
            HelperStage::Idle
        }
    }

    /// The write that waits for its proof.
    pub(crate) fn challenged(&self) -> Option<ChallengedWrite<'_>>
        ensures { option_map plain_challenged result ≡ challenged_in (row_in self.now) }
    {
        match self.stage {
            HelperStage::Begun(begun) => {
                let ckey = begun.ckey;
                Some(ChallengedWrite {
                    serial: self.serial,
                    ckey,
                    part: &self.room.part,
                })
            }
            HelperStage::Idle => None,
            HelperStage::Deposited(_) => None,
            HelperStage::Proved(_, _) => None,
            HelperStage::Audited(_, _) => None,
            HelperStage::Done(_) => None,
        }
    }

    /// The key that waits for a register of this serial.
    pub(crate) fn key_for(&self, serial: u32) -> Option<[u8; 32]>
        ensures { result ≡ held_key (stage_for (row_in self.now) serial) }
    {
        match self.stage_for(serial) {
            HelperStage::Deposited(DepositBody::Register(key)) => Some(key),
            HelperStage::Deposited(DepositBody::Write(_)) => None,
            HelperStage::Deposited(DepositBody::Read(_)) => None,
            HelperStage::Idle => None,
            HelperStage::Begun(_) => None,
            HelperStage::Proved(_, _) => None,
            HelperStage::Audited(_, _) => None,
            HelperStage::Done(_) => None,
        }
    }

    /// The root that waits for a begin of this serial.
    pub(crate) fn root_for(&self, serial: u32) -> Option<u128>
        ensures { result ≡ held_root (stage_for (row_in self.now) serial) }
    {
        match self.stage_for(serial) {
            HelperStage::Deposited(DepositBody::Write(root)) => Some(root),
            HelperStage::Deposited(DepositBody::Register(_)) => None,
            HelperStage::Deposited(DepositBody::Read(_)) => None,
            HelperStage::Idle => None,
            HelperStage::Begun(_) => None,
            HelperStage::Proved(_, _) => None,
            HelperStage::Audited(_, _) => None,
            HelperStage::Done(_) => None,
        }
    }

    /// The token that waits for a read of this serial.
    pub(crate) fn token_for(&self, serial: u32) -> Option<u128>
        ensures { result ≡ held_token (stage_for (row_in self.now) serial) }
    {
        match self.stage_for(serial) {
            HelperStage::Deposited(DepositBody::Read(token)) => Some(token),
            HelperStage::Deposited(DepositBody::Register(_)) => None,
            HelperStage::Deposited(DepositBody::Write(_)) => None,
            HelperStage::Idle => None,
            HelperStage::Begun(_) => None,
            HelperStage::Proved(_, _) => None,
            HelperStage::Audited(_, _) => None,
            HelperStage::Done(_) => None,
        }
    }

    /// The write that waits for a settle of this serial, and the helper's closing.
    pub(crate) fn closing_for(&self, serial: u32) -> Option<(Begun, Closing)>
        ensures held { option_map (λ x. (write_in x.0 self.now.room.part.items, x.1)) result
            ≡ held_closing (stage_for (row_in self.now) serial) }
        ensures leaves { IfSlot self.now
            (λ addresses. IfSome result (λ x. HasLeaves 1 x.0 self.now.room addresses)) }
    {
        if self.serial != serial {
            return None;
        }
        match self.stage {
            HelperStage::Audited(begun, own) => Some((begun, own)),
            HelperStage::Idle => None,
            HelperStage::Deposited(_) => None,
            HelperStage::Begun(_) => None,
            HelperStage::Proved(_, _) => None,
            HelperStage::Done(_) => None,
        }
    }

    /// The write that waits for an audit of this serial, with its proof share if that has come.
    pub(crate) fn proof_for(&self, serial: u32) -> Option<Option<(Begun, ProofShare)>>
        ensures held { option_map (option_map (λ x. (write_in x.0 self.now.room.part.items, x.1))) result
            ≡ held_proof (stage_for (row_in self.now) serial) }
        ensures count { IfSlot self.now
            (λ addresses. IfSome result (λ found. IfSome found (λ x. x.0.count ≤ length addresses))) }
    {
        if self.serial != serial {
            return None;
        }
        match self.stage {
            HelperStage::Begun(_) => Some(None),
            HelperStage::Proved(begun, share) => Some(Some((begun, share))),
            HelperStage::Idle => None,
            HelperStage::Deposited(_) => None,
            HelperStage::Audited(_, _) => None,
            HelperStage::Done(_) => None,
        }
    }

    /// A write is audited: its leaves stand, and this is the helper's closing.
    pub(crate) fn audited(&mut self, serial: u32, begun: Begun, own: Closing)
        ensures row { row_in self.new ≡ row serial (Audits (write_in begun self.old.room.part.items) own) }
        ensures is_slot { (addresses : List ℕ) → HasLeaves 1 begun self.old.room addresses
            → BecomesSlot addresses self.old self.new }
    {
        self.serial = serial;
        self.stage = HelperStage::Audited(begun, own);
    }

    /// The request of this serial is done.
    pub(crate) fn finish(&mut self, serial: u32, want: Want)
        ensures row { row_in self.new ≡ row serial (Done want) }
        ensures room { self.new.room ≡ self.old.room }
        ensures is_slot { (addresses : List ℕ) → StaysSlot addresses self.old self.new }
    {
        self.serial = serial;
        self.stage = HelperStage::Done(want);
    }

    /// A write begins, with this public part.
    pub(crate) fn begin(&mut self, serial: u32, begun: Begun, part: &[u8])
        requires part { length part.now ≡ length self.old.room.part.items }
        ensures row { row_in self.new ≡ row serial (Begins (write_in begun part.now)) }
        ensures is_slot { (addresses : List ℕ) → begun.count ≤ length addresses
            → StaysSlot addresses self.old self.new }
    {
        self.room.part.copy_from_slice(part);
        self.serial = serial;
        self.stage = HelperStage::Begun(begun);
    }

    /// A deposit of a client: the first one of a serial stands.
    #[tactic(auto, unfolding(step_rules::specs::HelperClients::deposit_row, step_rules::specs::HelperClients::deposit_at))]
    pub(crate) fn deposit(&mut self, serial: u32, held: DepositBody) -> Body<'static>
        ensures { TakesTurn (deposit_row (row_in self.old) serial held)
            self.old self.new (plain_body result) }
    {
        match opening(&self.door(), serial, want_in(&held)) {
            Gate::Stale(serial) => refused(Refusal::Stale(serial)),
            Gate::Phase(phase) => refused(Refusal::Phase(phase)),
            Gate::Same => Body::Held { proof: false },
            Gate::New => {
                self.serial = serial;
                self.stage = HelperStage::Deposited(held);
                Body::Held { proof: false }
            }
        }
    }

    /// A proof share of a client: the first one stands.
    #[tactic(auto, unfolding(step_rules::specs::HelperClients::proof_row, step_rules::specs::HelperClients::proof_at))]
    pub(crate) fn prove(&mut self, serial: u32, share: ProofShare) -> Body<'static>
        ensures { TakesTurn (proof_row (row_in self.old) serial share) self.old self.new (plain_body result) }
    {
        match closing(&self.door(), serial) {
            Gate::Stale(serial) => refused(Refusal::Stale(serial)),
            Gate::Phase(phase) => refused(Refusal::Phase(phase)),
            Gate::Same => self.take_share(share),
            Gate::New => self.take_share(share),
        }
    }

    #[tactic(auto, unfolding(step_rules::specs::HelperClients::proof_in))]
    fn take_share(&mut self, share: ProofShare) -> Body<'static>
        ensures { TakesTurn (proof_in (row_in self.old) share (stage_in self.old))
            self.old self.new (plain_body result) }
    {
        match self.stage {
            HelperStage::Idle => refused(Refusal::Phase(phase::IDLE)),
            HelperStage::Deposited(_) => refused(Refusal::Phase(phase::DEPOSITED)),
            HelperStage::Begun(begun) => {
                self.stage = HelperStage::Proved(begun, share);
                Body::Held { proof: true }
            }
            HelperStage::Proved(_, _) => Body::Held { proof: true },
            HelperStage::Audited(_, _) => Body::Held { proof: true },
            HelperStage::Done(_) => Body::Held { proof: true },
        }
    }
}

/// A slot for each lane, of which no frame has come.
pub(crate) fn idle_slots(alloc: Global, settings: &Settings) -> Result<Vec<HelperSlot>, NoMemory>
    ensures rows { IfOk result (λ slots. rows_in slots.items ≡ replicate settings.now.lanes idle) }
    ensures slots { IfOk result
        (λ slots. All (IsHelperSlot settings.now.width settings.now.boxes []) slots.items) }
{
    let Ok(mut slots) = Vec::with_capacity(alloc, usize::from(settings.lanes)) else {
        return Err(NoMemory);
    };
    for _ in 0..settings.lanes {
        let slot = idle_slot(alloc, settings.width, settings.boxes)?;
        if slots.push(slot).is_err() {
            return Err(NoMemory);
        }
    }
    Ok(slots)
}

fn idle_slot(alloc: Global, width: u32, boxes: u32) -> Result<HelperSlot, NoMemory>
    ensures row { IfOk result (λ slot. row_in slot ≡ idle) }
    ensures slot { IfOk result (λ slot. IsHelperSlot width boxes [] slot) }
{
    let room = Room::open(alloc, width, boxes)?;
    Ok(HelperSlot {
        serial: 0,
        stage: HelperStage::Idle,
        room,
    })
}
