//! Frames of clients: what is said of them before a command is issued.
ghost use Rattle.std.specs.Prelude.{◌≡◌, ◌+◌, ◌-◌, ◌^◌, ◌<◌, ◌≤◌, IfSome, IsNone, true, length, take, slice_index_or};
ghost use Rattle.audit_rules.specs.Values.{sigma_of};
ghost use Rattle.dpf_rules.specs.Evaluation.{prefix_count};
ghost use Rattle.frame_rules.specs.Frames.{PlainFrame, plain, plain_body};
ghost use Rattle.frame_rules.specs.Spelling.{IsFrame};
ghost use Rattle.frame_rules.specs.Whole.{is_from_client};
ghost use Rattle.frame_rules.specs.Room.{HasRoom};
ghost use Rattle.step_rules.specs.Boxes.{addresses_of};
ghost use Rattle.step_rules.specs.Leader.{Leader};
ghost use Rattle.step_rules.specs.LeaderClients.{if_named, if_room, issued_for, on_proof, on_submission};
ghost use Rattle.leader_core.specs.Asked.{asked_with, named_in, IsAsked};
ghost use Rattle.leader_core.specs.Saying.{Admits, IsSaid, LetsThrough};
ghost use Rattle.leader_core.specs.State.{audits_there, leader_in, AreStores};
ghost use Rattle.leader_core.specs.Told.{turn_steps, DoesTurn, ExpandsNothing};

use crate::asked::{Asked, Named};
use crate::said::SaidToClient;
use crate::slot::{LeaderSlot, LeaderStage, refused};
use crate::stores::LeaderStores;
use crate::turn::Turn;
use crate::writing::tell;
use chacha_expand::{draw32, token};
use dpf_eval::Steps;
use dpf_rules::read_number;
use express_words::{ProofShare, Refusal};
use frame_rules::{Body, Frame};
use lane_table::Want;
use server_boxes::{Begun, Proof, ServerBoxes};
use std::sync::ledger::Ledger;

/// The greatest number that a request's command may get. The numbers above it are left for settles.
const LAST_NUMBER: u64 = u64::MAX - 64;

/// What is said where a read or a retire names no box, or not by its token.
fn named_box(
    boxes: &ServerBoxes,
    frame: &Frame<'_>,
    named: Option<Named>,
) -> Option<SaidToClient<'static>>
    ensures turn { (a : Leader) → a.boxes ≡ boxes.now.boxes
        → LetsThrough a (plain frame.now) (if_named a (plain frame.now) (named_in named)) result }
    ensures said { IfSome result IsSaid }
{
    let Some(named) = named else {
        return None;
    };
    let Some(key) = boxes.key_of(named.number) else {
        return Some(refused(Refusal::NoBox(named.number)));
    };
    if named.held == token(&key, frame.lane, frame.serial) {
        None
    } else {
        Some(refused(Refusal::BadToken(named.number)))
    }
}

impl LeaderStores {
    /// What is said to a register, a write, a read or a retire; None where its command may be issued.
    pub(crate) fn admit(
        &self,
        frame: &Frame<'_>,
        want: Want,
        named: Option<Named>,
    ) -> Option<SaidToClient<'_>>
        requires is { AreStores self.now }
        ensures turn { Admits (leader_in self.now) (plain frame.now) want (named_in named) result }
        ensures said { IfSome result IsSaid }
        ensures lane { IsNone result → frame.now.lane < self.now.settings.lanes }
    {
        if frame.lane >= self.settings.lanes {
            return Some(refused(Refusal::Lane(self.settings.lanes)));
        }
        match self.slots[usize::from(frame.lane)].submission(frame.serial, want) {
            Some(said) => Some(said),
            None => named_box(&self.boxes, frame, named),
        }
    }

    /// What is said where no command can be issued: the numbers are used up, or the window is full.
    pub(crate) fn room(&self) -> Option<SaidToClient<'static>>
        requires is { AreStores self.now }
        ensures turn { (f : PlainFrame)
            → LetsThrough (leader_in self.now) f (if_room (leader_in self.now) f) result }
        ensures said { IfSome result IsSaid }
        ensures next { IsNone result → self.now.link.next ≤ 2 ^ 64 - 65 }
        ensures free { IsNone result → length self.now.link.frames < self.now.link.window }
    {
        if self.link.next() > LAST_NUMBER {
            return Some(refused(Refusal::Again(0)));
        }
        match self.link.full() {
            Some(number) => Some(refused(Refusal::Again(number))),
            None => None,
        }
    }

    /// Issues the first command of a request.
    fn submit(&mut self, frame: &Frame<'_>, asked: Asked, part: &[u8], out: &mut [u8]) -> Turn
        requires is { AreStores self.old }
        requires is_frame { IsFrame (plain frame.now) }
        requires class { is_from_client (plain_body frame.now.body) ≡ true }
        requires lane { frame.now.lane < self.old.settings.lanes }
        requires part { IsAsked self.old.settings.width asked part.now }
        requires next { self.old.link.next ≤ 2 ^ 64 - 65 }
        requires free { length self.old.link.frames < self.old.link.window }
        requires room { HasRoom out.old }
        ensures does { DoesTurn (issued_for (leader_in self.old) (plain frame.now)
            (asked_with asked part.now)) self.new result out.old out.new }
        ensures none { ExpandsNothing (leader_in self.old)
            (issued_for (leader_in self.old) (plain frame.now) (asked_with asked part.now)) }
        ensures settings { self.new.settings ≡ self.old.settings }
    {
        let number = self.link.next();
        let body = asked.command(part);
        let length = self.link.issue(frame.lane, frame.serial, &body, out);
        self.slots[usize::from(frame.lane)].wait(frame.serial, number, asked, part);
        self.draws += asked.draws();
        Turn::Link(number, length)
    }

    /// A register, a write, a read or a retire.
    pub(crate) fn ask(
        &mut self,
        frame: &Frame<'_>,
        asked: Asked,
        part: &[u8],
        named: Option<Named>,
        out: &mut [u8],
    ) -> Turn
        requires is { AreStores self.old }
        requires is_frame { IsFrame (plain frame.now) }
        requires class { is_from_client (plain_body frame.now.body) ≡ true }
        requires part { IsAsked self.old.settings.width asked part.now }
        requires room { HasRoom out.old }
        ensures does { DoesTurn (on_submission (leader_in self.old) (plain frame.now)
            (asked_with asked part.now) (named_in named)) self.new result out.old out.new }
        ensures none { ExpandsNothing (leader_in self.old) (on_submission (leader_in self.old)
            (plain frame.now) (asked_with asked part.now) (named_in named)) }
        ensures settings { self.new.settings ≡ self.old.settings }
    {
        if let Some(said) = self.admit(frame, asked.want(), named) {
            return tell(frame, &said, out);
        }
        if let Some(said) = self.room() {
            return tell(frame, &said, out);
        }
        self.submit(frame, asked, part, out)
    }

    /// Issues the audit of a write.
    fn audit<L: Ledger>(
        &mut self,
        frame: &Frame<'_>,
        begun: &Begun,
        share: &ProofShare,
        out: &mut [u8],
        steps: &mut Steps<L>,
    ) -> Turn
        requires is { AreStores self.old }
        requires is_frame { IsFrame (plain frame.now) }
        requires class { is_from_client (plain_body frame.now.body) ≡ true }
        requires lane { frame.now.lane < self.old.settings.lanes }
        requires held { (d : LeaderSlot)
            → (slice_index_or self.old.slots.items frame.now.lane d).stage ≡ LeaderStage.Challenged begun.now }
        requires next { self.old.link.next ≤ 2 ^ 64 - 65 }
        requires free { length self.old.link.frames < self.old.link.window }
        requires room { HasRoom out.old }
        ensures does { (d : LeaderSlot)
            → DoesTurn (audits_there self.old (plain frame.now) begun.now share.now d)
            self.new result out.old out.new }
        ensures steps { steps.new ≡ steps.old + prefix_count (take begun.now.count
            (addresses_of self.old.boxes.boxes)) }
        ensures settings { self.new.settings ≡ self.old.settings }
    {
        let number = self.link.next();
        let sigma = sigma_of(&draw32(&self.seed, self.draws));
        let proof = Proof {
            share: *share,
            sigma,
        };
        let slot = &mut self.slots[usize::from(frame.lane)];
        slot.serial = frame.serial;
        let opened = slot.audit(&mut self.boxes, number, begun, &proof, steps);
        let body = Body::LinkAudit { sigma, opened };
        let length = self.link.issue(frame.lane, frame.serial, &body, out);
        self.draws += 1;
        Turn::Link(number, length)
    }

    /// A proof share of a write.
    pub(crate) fn prove<L: Ledger>(
        &mut self,
        frame: &Frame<'_>,
        share: &ProofShare,
        out: &mut [u8],
        steps: &mut Steps<L>,
    ) -> Turn
        requires is { AreStores self.old }
        requires is_frame { IsFrame (plain frame.now) }
        requires class { is_from_client (plain_body frame.now.body) ≡ true }
        requires room { HasRoom out.old }
        ensures does { DoesTurn (on_proof (leader_in self.old) (plain frame.now) share.now) self.new result out.old out.new }
        ensures steps { steps.new ≡ steps.old + turn_steps (leader_in self.old) (on_proof
            (leader_in self.old) (plain frame.now) share.now).answer }
        ensures settings { self.new.settings ≡ self.old.settings }
    {
        if frame.lane >= self.settings.lanes {
            return tell(frame, &refused(Refusal::Lane(self.settings.lanes)), out);
        }
        let begun = match self.slots[usize::from(frame.lane)].proof(frame.serial) {
            Ok(begun) => begun,
            Err(said) => return tell(frame, &said, out),
        };
        if let Some(said) = self.room() {
            return tell(frame, &said, out);
        }
        self.audit(frame, &begun, share, out, steps)
    }
}

/// The point of a proof: the number that a draw's first 16 bytes spell, the lowest byte first.
fn sigma_of(draw: &[u8; 32]) -> u128
    ensures { result ≡ sigma_of draw.now }
{
    read_number(&draw[..16])
}
