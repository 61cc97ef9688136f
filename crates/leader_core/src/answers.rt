//! Replies of the helper: what each order leaves of the stores, where its reply fits.
ghost use Rattle.std.specs.Prelude.{true, ◌≡◌, ◌<◌, Some, None, length, slice_get};
ghost use Rattle.std.specs.Bool.{OnFalse};
ghost use Rattle.frame_rules.specs.Frames.{Refused};
ghost use Rattle.frame_rules.specs.Whole.{IsAnswer};
ghost use Rattle.step_rules.specs.LeaderReplies.{accepted, audited, began, done, read, registered, rejected};
ghost use Rattle.leader_core.specs.Applying.{stage_at, Applies, AppliesSettle};
ghost use Rattle.leader_core.specs.Replies.{want_of_order};
ghost use Rattle.leader_core.specs.State.{leader_in, AreStores, KeepsStores};

use crate::issued::{Issued, want_of_order};
use crate::slot::KeptReply;
use crate::stores::LeaderStores;
use express_words::{Closing, Openings, Refusal};
use lane_table::Want;
use server_boxes::{Begun, challenge_key, close};
use snip_proof::judge;

impl LeaderStores {
    /// The helper has refused the command.
    pub(crate) fn refuse(&mut self, command: &Issued, refusal: Refusal)
        requires is { AreStores self.old }
        requires lane { command.now.lane < self.old.settings.lanes }
        requires answer { IsAnswer (Refused refusal) }
        ensures fits { Applies (λ a c. Some (done a c (want_of_order command.now.order) (Refused refusal)))
            self.old command.now self.new true }
        ensures kept { KeepsStores self.old self.new }
    {
        let want = want_of_order(command.order);
        let slot = &mut self.slots[usize::from(command.lane)];
        slot.finish(command.serial, want, KeptReply::Refused(refusal));
    }

    /// The helper has registered the address at this box; whether that fits.
    pub(crate) fn registered(&mut self, command: &Issued, address: u128, number: u32) -> bool
        requires is { AreStores self.old }
        requires lane { command.now.lane < self.old.settings.lanes }
        ensures fits { Applies (λ a c. registered a c address (stage_at a c) number)
            self.old command.now self.new result }
        ensures same { OnFalse result (leader_in self.new ≡ leader_in self.old) }
        ensures kept { KeepsStores self.old self.new }
    {
        let Some(key) = self.slots[usize::from(command.lane)].key() else {
            return false;
        };
        if number != self.boxes.count() {
            return false;
        }
        match self.boxes.register(address, &key) {
            Err(_) => false,
            Ok(_) => {
                let slot = &mut self.slots[usize::from(command.lane)];
                slot.finish(
                    command.serial,
                    Want::Register,
                    KeptReply::Registered(number),
                );
                true
            }
        }
    }

    /// The helper has begun a write over so many boxes, and drawn its half of the key; whether that fits.
    pub(crate) fn began(&mut self, command: &Issued, count: u32, helpers: &[u8; 32]) -> bool
        requires is { AreStores self.old }
        requires lane { command.now.lane < self.old.settings.lanes }
        ensures fits { Applies (λ a c. began a c (stage_at a c) count helpers.now)
            self.old command.now self.new result }
        ensures same { OnFalse result (leader_in self.new ≡ leader_in self.old) }
        ensures kept { KeepsStores self.old self.new }
    {
        let Some(begins) = self.slots[usize::from(command.lane)].writing() else {
            return false;
        };
        let (root, draw) = begins;
        if count != self.boxes.count() {
            return false;
        }
        let ckey = challenge_key(&draw, helpers);
        let slot = &mut self.slots[usize::from(command.lane)];
        slot.challenge(command.serial, Begun { root, count, ckey });
        true
    }

    /// The helper has accepted a write; whether the leader's judge does.
    pub(crate) fn accepted(&mut self, command: &Issued) -> bool
        requires is { AreStores self.old }
        requires lane { command.now.lane < self.old.settings.lanes }
        ensures fits { Applies (λ a c. accepted a c (stage_at a c)) self.old command.now self.new result }
        ensures same { OnFalse result (leader_in self.new ≡ leader_in self.old) }
        ensures kept { KeepsStores self.old self.new }
    {
        let slot = &self.slots[usize::from(command.lane)];
        let Some((begun, own, other)) = slot.settling() else {
            return false;
        };
        if !judge(&own, &other) {
            return false;
        }
        self.boxes.add_write(&begun, &slot.room);
        let slot = &mut self.slots[usize::from(command.lane)];
        slot.finish(command.serial, Want::Write, KeptReply::Accepted);
        true
    }

    /// The helper has rejected a write; whether the leader's judge does.
    pub(crate) fn rejected(&mut self, command: &Issued) -> bool
        requires is { AreStores self.old }
        requires lane { command.now.lane < self.old.settings.lanes }
        ensures fits { Applies (λ a c. rejected a c (stage_at a c)) self.old command.now self.new result }
        ensures same { OnFalse result (leader_in self.new ≡ leader_in self.old) }
        ensures kept { KeepsStores self.old self.new }
    {
        let Some((_, own, other)) = self.slots[usize::from(command.lane)].settling() else {
            return false;
        };
        if judge(&own, &other) {
            return false;
        }
        let refusal = rejection(own, other);
        let slot = &mut self.slots[usize::from(command.lane)];
        slot.finish(command.serial, Want::Write, KeptReply::Refused(refusal));
        true
    }

    /// The helper has read a box, and this is its masked share; whether that fits. A read leaves the box live, a retire
    /// doesn't.
    pub(crate) fn read(&mut self, command: &Issued, stays: bool, number: u32, share: &[u8]) -> bool
        requires is { AreStores self.old }
        requires lane { command.now.lane < self.old.settings.lanes }
        requires width { length share.now ≡ self.old.settings.width }
        ensures fits { Applies (λ a c. read a c stays number (slice_get a.boxes number) share.now)
            self.old command.now self.new result }
        ensures same { OnFalse result (leader_in self.new ≡ leader_in self.old) }
        ensures kept { KeepsStores self.old self.new }
    {
        if number >= self.boxes.count() {
            return false;
        }
        let slot = &mut self.slots[usize::from(command.lane)];
        let (lane, serial) = (command.lane, command.serial);
        self.boxes.read(number, stays, lane, serial, &mut slot.own);
        slot.other.copy_from_slice(share);
        slot.finish(serial, Want::Read, KeptReply::Message);
        true
    }

    /// The helper has opened its part and closed: the leader's own closing, under which its row waits for the settle.
    /// None where that doesn't fit.
    pub(crate) fn audited(
        &mut self,
        command: &Issued,
        opened: &Openings,
        closing: &Closing,
    ) -> Option<Closing>
        requires is { AreStores self.old }
        requires lane { command.now.lane < self.old.settings.lanes }
        ensures fits { AppliesSettle (λ a c. audited a c (stage_at a c) opened.now closing.now)
            self.old command.now self.new result }
        ensures same { result ≡ None → leader_in self.new ≡ leader_in self.old }
        ensures kept { KeepsStores self.old self.new }
    {
        let number = self.link.next();
        let slot = &mut self.slots[usize::from(command.lane)];
        let Some((begun, proof, own)) = slot.auditing() else {
            return None;
        };
        let closed = close(0, &proof, &own, opened);
        slot.settle(command.serial, number, begun, (closed, *closing));
        Some(closed)
    }
}

/// Why a write is rejected: both servers' closings, the leader's first.
fn rejection(own: Closing, other: Closing) -> Refusal
    ensures value { result ≡ Refusal.Rejected own.o other.o own.tau other.tau }
    ensures answer { IsAnswer (Refused result) }
{
    Refusal::Rejected(own.o, other.o, own.tau, other.tau)
}
