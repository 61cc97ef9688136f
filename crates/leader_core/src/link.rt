//! The link to the helper: the oldest outstanding command, and what follows its reply.
ghost use Rattle.std.specs.Prelude.{true, ◌≡◌, ◌↔◌, ◌<◌, ◌≤◌, ◌+◌, Some, None, IfSome, IsSome, IsNone, [], length, option_map, take, drop};
ghost use Rattle.frame_rules.specs.Frames.{PlainFrame};
ghost use Rattle.frame_rules.specs.Spelling.{spelling};
ghost use Rattle.frame_rules.specs.Room.{HasRoom};
ghost use Rattle.link_order.specs.Link.{IsOutstanding};
ghost use Rattle.server_boxes.specs.Challenged.{plain_challenged};
ghost use Rattle.step_rules.specs.Leader.{row_at};
ghost use Rattle.step_rules.specs.LeaderReplies.{on_reply_bytes};
ghost use Rattle.leader_core.specs.Challenged.{challenged_in};
ghost use Rattle.leader_core.specs.Commands.{is_audit, IsIssued};
ghost use Rattle.leader_core.specs.Replies.{settled_with, told};
ghost use Rattle.leader_core.specs.State.{leader_in, oldest_in, AreStores};
ghost use Rattle.leader_core.specs.Standings.{standing_in};
ghost use Rattle.leader_core.specs.Told.{resent_at, sent_length, DoesAck};

use crate::applied::Applied;
use crate::issued::Issued;
use crate::standing::Standing;
use crate::stores::LeaderStores;
use crate::turn::Ack;
use crate::writing::put_frame;
use express_words::Closing;
use frame_rules::Body;
use server_boxes::ChallengedWrite;
use wire_frames::Received;

impl LeaderStores {
    /// The oldest outstanding command.
    pub(crate) fn oldest(&self) -> Option<Issued>
        requires is { AreStores self.now }
        ensures none { IsNone result → self.now.link.frames ≡ [] }
        ensures some { IsSome result → 0 < length self.now.link.frames }
        ensures issued { IfSome result (IsIssued (oldest_in self.now)) }
        ensures lane { IfSome result (λ i. i.lane < self.now.settings.lanes) }
        ensures serial { IfSome result (λ i. 1 ≤ i.serial) }
    {
        self.link.oldest()
    }

    /// The oldest command is answered: the reply that the lane keeps is written for its client.
    fn tell_lane(&mut self, command: &Issued, out: &mut [u8]) -> Ack
        requires is { AreStores self.old }
        requires lane { command.now.lane < self.old.settings.lanes }
        requires serial { 1 ≤ command.now.serial }
        requires some { 0 < length self.old.link.frames }
        requires room { HasRoom out.old }
        ensures does { (c : PlainFrame) → IsIssued c command.now
            → DoesAck (told (leader_in self.old) c) self.new result out.old out.new }
        ensures settings { self.new.settings ≡ self.old.settings }
    {
        self.link.drop_oldest();
        let body = self.slots[usize::from(command.lane)].kept();
        let reply = command.reply(&body);
        Ack::Reply(command.lane, put_frame(&reply, out))
    }

    /// The oldest command, an audit, is answered: the settle is issued in its place.
    fn settle(&mut self, command: &Issued, own: Closing, out: &mut [u8]) -> Ack
        requires is { AreStores self.old }
        requires lane { command.now.lane < self.old.settings.lanes }
        requires serial { 1 ≤ command.now.serial }
        requires some { 0 < length self.old.link.frames }
        requires audit { is_audit (oldest_in self.old).body ≡ true }
        requires room { HasRoom out.old }
        ensures does { (c : PlainFrame) → IsIssued c command.now
            → DoesAck (settled_with (leader_in self.old) c own) self.new result out.old out.new }
        ensures settings { self.new.settings ≡ self.old.settings }
    {
        self.link.drop_oldest();
        let number = self.link.next();
        let body = Body::LinkSettle(own);
        let length = self.link.issue(command.lane, command.serial, &body, out);
        Ack::Link(number, length)
    }

    /// Bytes of the helper.
    pub(crate) fn hear_reply(&mut self, received: &Received<'_>, out: &mut [u8]) -> Ack
        requires is { AreStores self.old }
        requires room { HasRoom out.old }
        ensures does { DoesAck (on_reply_bytes (leader_in self.old) received.now)
            self.new result out.old out.new }
        ensures settings { self.new.settings ≡ self.old.settings }
    {
        let Some(reply) = received.reply(self.settings.width) else {
            return Ack::Ignored;
        };
        let Some(command) = self.oldest() else {
            return Ack::Ignored;
        };
        if !command.is_answered_by(&reply) {
            return Ack::Ignored;
        }
        match self.apply(&command, &reply.body) {
            Applied::Nothing => Ack::Ignored,
            Applied::Kept => self.tell_lane(&command, out),
            Applied::Settles(own) => self.settle(&command, own, out),
        }
    }

    /// The write of a lane that waits for its proof.
    pub(crate) fn challenged(&self, lane: u16) -> Option<ChallengedWrite<'_>>
        ensures { option_map plain_challenged result ≡ challenged_in (row_at (leader_in self.now) lane) }
    {
        let place = usize::from(lane);
        if self.slots.len() <= place {
            return None;
        }
        self.slots[place].challenged_write()
    }

    /// How a lane stands.
    pub(crate) fn standing(&self, lane: u16) -> Standing
        ensures { result ≡ standing_in (row_at (leader_in self.now) lane) }
    {
        let place = usize::from(lane);
        if self.slots.len() <= place {
            return Standing::Other;
        }
        self.slots[place].standing()
    }

    /// How many commands are outstanding.
    pub(crate) fn outstanding(&self) -> usize
        requires is { AreStores self.now }
        ensures count { result ≡ length (leader_in self.now).outstanding }
        ensures few { result ≤ 32 }
    {
        self.link.count()
    }

    /// Writes the outstanding command at this place again, the oldest at 0.
    pub(crate) fn resend_at(&self, place: usize, out: &mut [u8]) -> Option<(u64, usize)>
        requires is { AreStores self.now }
        requires room { HasRoom out.old }
        ensures none { IsNone result ↔ (resent_at (leader_in self.now) place ≡ None) }
        ensures number { IfSome result (λ x. x.0 + length
            (leader_in self.now).outstanding ≡ self.now.link.next + place) }
        ensures length { IfSome result (λ x. option_map (λ c. length (spelling c)) (resent_at
            (leader_in self.now) place) ≡ Some x.1) }
        ensures written { IfSome result (λ x. option_map spelling (resent_at (leader_in self.now) place) ≡ Some
            (take x.1 out.new)) }
        ensures rest { drop (sent_length result) out.new ≡ drop (sent_length result) out.old }
    {
        let (number, bytes) = self.link.bytes_at(place)?;
        let length = bytes.len();
        out[..length].copy_from_slice(bytes);
        Some((number, length))
    }
}
