//! What a reply of the helper does, by the command that it answers.
ghost use Rattle.std.specs.Prelude.{true, ◌≡◌, ◌<◌, Option, Some, if◌then◌else◌};
ghost use Rattle.frame_rules.specs.Frames.{plain_body};
ghost use Rattle.frame_rules.specs.Spelling.{IsBody};
ghost use Rattle.frame_rules.specs.Whole.{has_width};
ghost use Rattle.step_rules.specs.LeaderReplies.{fits, if_audited, if_begun, if_read, if_registered, if_settled, refusal_in, registered_in};
ghost use Rattle.leader_core.specs.Applying.{stage_at, AppliesAs};
ghost use Rattle.leader_core.specs.Replies.{IsAuditFor};
ghost use Rattle.leader_core.specs.declared.issued.CommandOrder.{CommandOrder as Ordered};
ghost use Rattle.leader_core.specs.State.{leader_in, AreStores, KeepsStores};

use crate::issued::{CommandOrder, Issued};
use crate::replies::{audited_in, begun_in, masked_in, refusal_in, registered_in, verdict_in};
use crate::stores::LeaderStores;
use express_words::Closing;
use frame_rules::Body;

/// What a reply of the helper does at the leader.
#[derive(Clone, Copy)]
pub(crate) enum Applied {
    /// It doesn't fit; nothing has changed.
    Nothing,
    /// The lane's slot keeps the reply for its client.
    Kept,
    /// The lane's slot waits for the settle, which carries the leader's closing.
    Settles(Closing),
}

fn kept(fits: bool) -> Applied
    ensures { result ≡ if fits then Applied.Kept else Applied.Nothing }
{
    if fits {
        Applied::Kept
    } else {
        Applied::Nothing
    }
}

impl LeaderStores {
    /// A reply to a register.
    fn to_register(&mut self, command: &Issued, address: u128, said: &Body<'_>) -> Applied
        requires is { AreStores self.old }
        requires lane { command.now.lane < self.old.settings.lanes }
        ensures fits { AppliesAs (λ a c. if_registered a c address (stage_at a c)
            (registered_in (plain_body said.now))) self.old command.now self.new result }
        ensures same { result ≡ Applied.Nothing → leader_in self.new ≡ leader_in self.old }
        ensures kept { KeepsStores self.old self.new }
        ensures audit { (order : Option Ordered) → IsAuditFor order result }
    {
        match registered_in(said) {
            Some(number) => kept(self.registered(command, address, number)),
            None => Applied::Nothing,
        }
    }

    /// A reply to a begin.
    fn to_begin(&mut self, command: &Issued, said: &Body<'_>) -> Applied
        requires is { AreStores self.old }
        requires lane { command.now.lane < self.old.settings.lanes }
        ensures fits { AppliesAs (λ a c. if_begun a c (stage_at a c) (plain_body said.now))
            self.old command.now self.new result }
        ensures same { result ≡ Applied.Nothing → leader_in self.new ≡ leader_in self.old }
        ensures kept { KeepsStores self.old self.new }
        ensures audit { (order : Option Ordered) → IsAuditFor order result }
    {
        match begun_in(said) {
            Some(begun) => {
                let (count, draw) = begun;
                kept(self.began(command, count, &draw))
            }
            None => Applied::Nothing,
        }
    }

    /// A reply to an audit.
    fn to_audit(&mut self, command: &Issued, said: &Body<'_>) -> Applied
        requires is { AreStores self.old }
        requires lane { command.now.lane < self.old.settings.lanes }
        ensures fits { AppliesAs (λ a c. if_audited a c (stage_at a c) (plain_body said.now))
            self.old command.now self.new result }
        ensures same { result ≡ Applied.Nothing → leader_in self.new ≡ leader_in self.old }
        ensures kept { KeepsStores self.old self.new }
    {
        let Some((opened, closing)) = audited_in(said) else {
            return Applied::Nothing;
        };
        match self.audited(command, &opened, &closing) {
            Some(own) => Applied::Settles(own),
            None => Applied::Nothing,
        }
    }

    /// A reply to a settle.
    fn to_settle(&mut self, command: &Issued, said: &Body<'_>) -> Applied
        requires is { AreStores self.old }
        requires lane { command.now.lane < self.old.settings.lanes }
        ensures fits { AppliesAs (λ a c. if_settled a c (stage_at a c) (plain_body said.now))
            self.old command.now self.new result }
        ensures same { result ≡ Applied.Nothing → leader_in self.new ≡ leader_in self.old }
        ensures kept { KeepsStores self.old self.new }
        ensures audit { (order : Option Ordered) → IsAuditFor order result }
    {
        match verdict_in(said) {
            Some(true) => kept(self.accepted(command)),
            Some(false) => kept(self.rejected(command)),
            None => Applied::Nothing,
        }
    }

    /// A reply to a read, or to a retire.
    fn to_read(&mut self, command: &Issued, stays: bool, number: u32, said: &Body<'_>) -> Applied
        requires is { AreStores self.old }
        requires lane { command.now.lane < self.old.settings.lanes }
        requires width { has_width self.old.settings.width (plain_body said.now) ≡ true }
        ensures fits { AppliesAs (λ a c. if_read a c stays number (plain_body said.now))
            self.old command.now self.new result }
        ensures same { result ≡ Applied.Nothing → leader_in self.new ≡ leader_in self.old }
        ensures kept { KeepsStores self.old self.new }
        ensures audit { (order : Option Ordered) → IsAuditFor order result }
    {
        match masked_in(said) {
            Some(share) => kept(self.read(command, stays, number, share)),
            None => Applied::Nothing,
        }
    }

    /// Does what the helper's reply to this command says, where it fits.
    pub(crate) fn apply(&mut self, command: &Issued, said: &Body<'_>) -> Applied
        requires is { AreStores self.old }
        requires lane { command.now.lane < self.old.settings.lanes }
        requires body { IsBody (plain_body said.now) }
        requires width { has_width self.old.settings.width (plain_body said.now) ≡ true }
        ensures fits { AppliesAs (λ a c. fits a c (plain_body said.now) (refusal_in (plain_body said.now)))
            self.old command.now self.new result }
        ensures same { result ≡ Applied.Nothing → leader_in self.new ≡ leader_in self.old }
        ensures kept { KeepsStores self.old self.new }
        ensures audit { IsAuditFor command.now.order result }
    {
        if let Some(refusal) = refusal_in(said) {
            self.refuse(command, refusal);
            return Applied::Kept;
        }
        let order = command.order;
        let Some(order) = order else {
            return Applied::Nothing;
        };
        match order {
            CommandOrder::Register(address) => self.to_register(command, address, said),
            CommandOrder::Begin => self.to_begin(command, said),
            CommandOrder::Audit => self.to_audit(command, said),
            CommandOrder::Settle => self.to_settle(command, said),
            CommandOrder::Read(number) => self.to_read(command, true, number, said),
            CommandOrder::Retire(number) => self.to_read(command, false, number, said),
        }
    }
}
