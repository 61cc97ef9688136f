//! The commands of the leader.
ghost use Rattle.std.specs.Prelude.{true, ◌≡◌, ◌+◌, ◌^◌, ◌<◌, ◌≤◌, ℕ, List, length};
ghost use Rattle.frame_rules.specs.Frames.{plain, plain_body};
ghost use Rattle.frame_rules.specs.Spelling.{IsBody};
ghost use Rattle.express_words.specs.Limits.{IsWidth, levels_len};
ghost use Rattle.frame_rules.specs.Whole.{has_width};
ghost use Rattle.server_boxes.specs.Held.{HasSameAddresses};
ghost use Rattle.step_rules.specs.HelperCommands.{held_key, held_root, held_proof, held_closing, held_token, carries_out, carry_steps, read, register, begin, audit, audit_steps, settle};
ghost use Rattle.helper_core.specs.Said.{added_in, effect_in, read_by, reading_in, said_in, stage_at, AtBoxes, HasEffect, KeepsSettings};

use crate::said::SaidToLeader;
use crate::server::Server;
use box_registry::RegFault;
use chacha_expand::{draw32, token};
use dpf_eval::Steps;
use express_words::{Closing, Openings, Refusal};
use frame_rules::{Body, Frame};
use lane_table::Want;
use server_boxes::{Begun, Proof, ServerBoxes, challenge_key, close};
use snip_proof::judge;
use std::sync::ledger::Ledger;

impl Server {
    /// A command to register an address.
    fn register(&mut self, frame: &Frame<'_>, address: u128) -> SaidToLeader
        requires lane { frame.now.lane < self.old.settings.lanes }
        ensures effect { HasEffect (register self.old (plain frame.now) address
            (held_key (stage_at self.old (plain frame.now)))) self.new result }
        ensures right { (masked : List ℕ) → IsBody (said_in result masked) }
        ensures kept { KeepsSettings self.old self.new }
    {
        let slot = &mut self.slots[usize::from(frame.lane)];
        match slot.key_for(frame.serial) {
            None => SaidToLeader::Refused(Refusal::NoDeposit),
            Some(key) => {
                slot.finish(frame.serial, Want::Register);
                let added = self.boxes.register(address, &key);
                said_of(added)
            }
        }
    }

    /// A command to begin a write.
    fn begin(&mut self, frame: &Frame<'_>, leaders: &[u8; 32], part: &[u8]) -> SaidToLeader
        requires lane { frame.now.lane < self.old.settings.lanes }
        requires part { length part.now ≡ levels_len + self.old.settings.width }
        requires draws { self.old.draws + 1 < 2 ^ 64 }
        ensures effect { HasEffect (begin self.old (plain frame.now) leaders.now part.now
            (held_root (stage_at self.old (plain frame.now)))) self.new result }
        ensures right { (masked : List ℕ) → IsBody (said_in result masked) }
        ensures kept { KeepsSettings self.old self.new }
    {
        let slot = &mut self.slots[usize::from(frame.lane)];
        match slot.root_for(frame.serial) {
            None => SaidToLeader::Refused(Refusal::NoDeposit),
            Some(root) => {
                let draw = draw32(&self.seed, self.draws);
                let count = self.boxes.count();
                let ckey = challenge_key(leaders, &draw);
                slot.begin(frame.serial, Begun { root, count, ckey }, part);
                self.draws += 1;
                SaidToLeader::Begun(count, draw)
            }
        }
    }

    /// A command to audit a write at the point `sigma`, where the leader opened `other`.
    fn audit<L: Ledger>(
        &mut self,
        frame: &Frame<'_>,
        sigma: u128,
        other: &Openings,
        steps: &mut Steps<L>,
    ) -> SaidToLeader
        requires lane { frame.now.lane < self.old.settings.lanes }
        ensures effect { HasEffect (audit self.old (plain frame.now) sigma other.now
            (held_proof (stage_at self.old (plain frame.now)))) self.new result }
        ensures steps { steps.new ≡ steps.old
            + audit_steps self.old (held_proof (stage_at self.old (plain frame.now))) }
        ensures right { (masked : List ℕ) → IsBody (said_in result masked) }
        ensures kept { KeepsSettings self.old self.new }
    {
        let slot = &mut self.slots[usize::from(frame.lane)];
        match slot.proof_for(frame.serial) {
            None => SaidToLeader::Refused(Refusal::NoDeposit),
            Some(None) => {
                slot.finish(frame.serial, Want::Write);
                SaidToLeader::Refused(Refusal::NotProved)
            }
            Some(Some((begun, share))) => {
                let proof = Proof { share, sigma };
                let own = self
                    .boxes
                    .open_write(1, &begun, &proof, &mut slot.room, steps);
                let closing = close(1, &proof, other, &own);
                slot.audited(frame.serial, begun, closing);
                SaidToLeader::Audited(own, closing)
            }
        }
    }

    /// A command to settle a write.
    fn settle(&mut self, frame: &Frame<'_>, leaders: &Closing) -> SaidToLeader
        requires lane { frame.now.lane < self.old.settings.lanes }
        ensures effect { HasEffect (settle self.old (plain frame.now) leaders.now
            (held_closing (stage_at self.old (plain frame.now)))) self.new result }
        ensures right { (masked : List ℕ) → IsBody (said_in result masked) }
        ensures kept { KeepsSettings self.old self.new }
    {
        let slot = &mut self.slots[usize::from(frame.lane)];
        match slot.closing_for(frame.serial) {
            None => SaidToLeader::Refused(Refusal::NoDeposit),
            Some((begun, own)) => {
                slot.finish(frame.serial, Want::Write);
                if judge(leaders, &own) {
                    self.boxes.add_write(&begun, &slot.room);
                    SaidToLeader::Accepted
                } else {
                    SaidToLeader::Rejected
                }
            }
        }
    }

    /// A command to read a box, whose masked share is left in `masked`. A read leaves the box live, a retire doesn't.
    fn read(
        &mut self,
        frame: &Frame<'_>,
        stays: bool,
        number: u32,
        masked: &mut [u8],
    ) -> SaidToLeader
        requires lane { frame.now.lane < self.old.settings.lanes }
        requires width { length masked.old ≡ self.old.settings.width }
        ensures effect { read self.old (plain frame.now) stays number
            (held_token (stage_at self.old (plain frame.now))) ≡ effect_in self.new result masked.new }
        ensures right { IsBody (said_in result masked.new) }
        ensures kept { KeepsSettings self.old self.new }
    {
        let slot = &mut self.slots[usize::from(frame.lane)];
        match slot.token_for(frame.serial) {
            None => SaidToLeader::Refused(Refusal::NoDeposit),
            Some(held) => {
                slot.finish(frame.serial, Want::Read);
                read_box(&mut self.boxes, frame, stays, number, held, masked)
            }
        }
    }

    /// Carries a command out; a masked share is left in `masked`.
    pub(crate) fn carry_out<L: Ledger>(
        &mut self,
        frame: &Frame<'_>,
        masked: &mut [u8],
        steps: &mut Steps<L>,
    ) -> SaidToLeader
        requires width { has_width self.old.settings.width (plain_body frame.now.body) ≡ true }
        requires masked { length masked.old ≡ self.old.settings.width }
        requires draws { self.old.draws + 1 < 2 ^ 64 }
        ensures effect { carries_out self.old (plain frame.now) ≡ effect_in self.new result masked.new }
        ensures steps { steps.new ≡ steps.old + carry_steps self.old (plain frame.now) }
        ensures right { IsBody (said_in result masked.new) }
        ensures kept { KeepsSettings self.old self.new }
    {
        if frame.lane >= self.lanes() {
            return SaidToLeader::Refused(Refusal::Lane(self.lanes()));
        }
        match frame.body {
            Body::LinkRegister { address } => self.register(frame, address),
            Body::LinkBegin { ckey, part } => self.begin(frame, &ckey, part),
            Body::LinkAudit { sigma, opened } => self.audit(frame, sigma, &opened, steps),
            Body::LinkSettle(closing) => self.settle(frame, &closing),
            Body::LinkRead { box_number } => self.read(frame, true, box_number, masked),
            Body::LinkRetire { box_number } => self.read(frame, false, box_number, masked),
            _ => SaidToLeader::Refused(Refusal::NoDeposit),
        }
    }

    fn lanes(&self) -> u16
        ensures { result ≡ self.now.settings.lanes }
    {
        self.settings.lanes
    }
}

/// Reads the box of this number, if it is live and `held` is its token: its share, masked, is left in `masked`.
fn read_box(
    boxes: &mut ServerBoxes,
    frame: &Frame<'_>,
    stays: bool,
    number: u32,
    held: u128,
    masked: &mut [u8],
) -> SaidToLeader
    requires width { length masked.old ≡ boxes.old.width }
    requires most { boxes.old.width ≤ 4096 }
    ensures reading { AtBoxes boxes.old (λ h. read_by h (plain frame.now) stays number held
        ≡ reading_in h (plain frame.now) boxes.new.boxes result masked.new) }
    ensures right { length masked.new ≡ length masked.old → IsWidth (length masked.old)
        → IsBody (said_in result masked.new) }
    ensures same { HasSameAddresses boxes.old boxes.new }
{
    let Some(key) = boxes.key_of(number) else {
        return SaidToLeader::Refused(Refusal::NoBox(number));
    };
    if !boxes.is_live(number) {
        return SaidToLeader::Refused(Refusal::NoBox(number));
    }
    if held != token(&key, frame.lane, frame.serial) {
        return SaidToLeader::Refused(Refusal::BadToken(number));
    }
    boxes.read(number, stays, frame.lane, frame.serial, masked);
    SaidToLeader::Masked
}

/// What is said of an address that was to be registered.
fn said_of(added: Result<u32, RegFault>) -> SaidToLeader
    ensures said { result ≡ added_in added }
    ensures right { (masked : List ℕ) → IsBody (said_in result masked) }
{
    match added {
        Ok(n) => SaidToLeader::Registered(n),
        Err(RegFault::Taken(n)) => SaidToLeader::Refused(Refusal::Taken(n)),
        Err(RegFault::Full(limit)) => SaidToLeader::Refused(Refusal::Full(limit)),
    }
}
