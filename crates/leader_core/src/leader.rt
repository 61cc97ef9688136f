//! The leader over its stores.
ghost use Rattle.std.specs.Prelude.{◌≡◌, ◌↔◌, ◌+◌, ◌<◌, ◌≤◌, IfOk, IfSome, IsNone, None, Some, length, option_map, take, drop};
ghost use Rattle.frame_rules.specs.Spelling.{spelling};
ghost use Rattle.frame_rules.specs.Room.{HasRoom};
ghost use Rattle.server_boxes.specs.Challenged.{plain_challenged};
ghost use Rattle.step_rules.specs.Leader.{opened_leader, row_at};
ghost use Rattle.step_rules.specs.LeaderClients.{on_client};
ghost use Rattle.step_rules.specs.LeaderReplies.{resent};
ghost use Rattle.leader_core.specs.Challenged.{challenged_in};
ghost use Rattle.leader_core.specs.Standings.{standing_in};
ghost use Rattle.leader_core.specs.State.{share_in};
ghost use Rattle.leader_core.specs.Told.{resent_at, sent_length, turn_steps};
ghost use Rattle.leader_core.specs.Turns.{DoesClient, DoesReply};

use crate::commands::Commands;
use crate::slot::idle_slots;
use crate::standing::Standing;
use crate::stores::LeaderStores;
use crate::turn::{Ack, Turn};
use dpf_eval::Steps;
use express_words::{NoMemory, Settings};
use server_boxes::{ChallengedWrite, ServerBoxes};
use std::alloc::Global;
use std::marker::Model;
use std::sync::ledger::Ledger;
use wire_frames::Received;

/// Server 0: its boxes, its shares, what it holds of each lane, and its commands that wait for replies. All of its
/// memory is taken when it is opened.
#[derive(Drop)]
pub struct Leader {
    core: LeaderStores,
}

impl Model for Leader {
    ghost use Rattle.step_rules.specs.Leader.{Leader as Steps};
    ghost use Rattle.leader_core.specs.Awaited.{IsLeader};
    ghost use Rattle.leader_core.specs.State.{leader_in};

    ghost Value = { Steps };

    ghost view = { λ a. leader_in a.core };

    ghost invariant = { λ a. IsLeader a.core };
}

impl Leader {
    /// A leader with no boxes, which has issued nothing. Its draws come from `seed`.
    pub fn open(alloc: Global, settings: &Settings, seed: &[u8; 32]) -> Result<Leader, NoMemory>
        ensures { IfOk result (λ a. a ≡ opened_leader settings.now seed.now) }
    {
        let boxes = ServerBoxes::open(alloc, settings.boxes, settings.width)?;
        let slots = idle_slots(alloc, settings)?;
        let link = Commands::open(alloc, settings.window)?;
        let seed = *seed;
        Ok(Leader {
            core: LeaderStores {
                settings: *settings,
                boxes,
                slots,
                link,
                draws: 0,
                seed,
            },
        })
    }

    /// A frame of a client: writes one reply or one new command to the front of `out`, or nothing where the lane's own
    /// command is outstanding. Any bytes get an answer. `steps` counts each node that an audit expands.
    pub fn hear_client<L: Ledger>(
        &mut self,
        received: &Received<'_>,
        out: &mut [u8],
        steps: &mut Steps<L>,
    ) -> Turn
        requires room { HasRoom out.old }
        ensures turn { DoesClient self.old received.now self.new result out.old out.new }
        ensures steps { steps.new ≡ steps.old + turn_steps self.old (on_client self.old received.now).answer }
    {
        self.core.hear_client(received, out, steps)
    }

    /// A frame of a client, likewise.
    pub fn on_client<L: Ledger>(
        &mut self,
        frame: &[u8],
        out: &mut [u8],
        steps: &mut Steps<L>,
    ) -> Turn
        requires room { HasRoom out.old }
        ensures turn { DoesClient self.old frame.now self.new result out.old out.new }
        ensures steps { steps.new ≡ steps.old + turn_steps self.old (on_client self.old frame.now).answer }
    {
        self.hear_client(&Received::of(frame), out, steps)
    }

    /// Bytes of the helper: where they are one reply that has the oldest outstanding number and fits its command, what
    /// it says is done, and a reply for the lane's client, or the settle of an audit, is written to the front of `out`.
    pub fn hear_link_reply(&mut self, received: &Received<'_>, out: &mut [u8]) -> Ack
        requires room { HasRoom out.old }
        ensures { DoesReply self.old received.now self.new result out.old out.new }
    {
        self.core.hear_reply(received, out)
    }

    /// Bytes of the helper, likewise.
    pub fn on_link_reply(&mut self, frame: &[u8], out: &mut [u8]) -> Ack
        requires room { HasRoom out.old }
        ensures { DoesReply self.old frame.now self.new result out.old out.new }
    {
        self.hear_link_reply(&Received::of(frame), out)
    }

    /// Writes the oldest outstanding command to the front of `out` again, and gives its number and its length; None
    /// exactly where none is outstanding, and then nothing is written.
    pub fn resend(&self, out: &mut [u8]) -> Option<(u64, usize)>
        requires room { HasRoom out.old }
        ensures none { IsNone result ↔ (resent self.now ≡ None) }
        ensures number { IfSome result (λ x. x.0 + length self.now.outstanding ≡ self.now.next) }
        ensures link { IfSome result (λ x. option_map (λ c. c.link) (resent self.now) ≡ Some x.0) }
        ensures length { IfSome result (λ x. option_map (λ c. length (spelling c))
            (resent self.now) ≡ Some x.1) }
        ensures written { IfSome result (λ x. option_map spelling (resent self.now) ≡ Some
            (take x.1 out.new)) }
        ensures rest { drop (sent_length result) out.new ≡ drop (sent_length result) out.old }
    {
        self.resend_at(0, out)
    }

    /// Writes the outstanding command at this place, the oldest at 0, to the front of `out` again, and gives its number
    /// and its length; None exactly where no more than `place` are outstanding, and then nothing is written.
    pub fn resend_at(&self, place: usize, out: &mut [u8]) -> Option<(u64, usize)>
        requires room { HasRoom out.old }
        ensures none { IsNone result ↔ (resent_at self.now place ≡ None) }
        ensures number { IfSome result (λ x. x.0 + length self.now.outstanding ≡ self.now.next + place) }
        ensures link { IfSome result (λ x. option_map (λ c. c.link) (resent_at self.now place) ≡ Some x.0) }
        ensures length { IfSome result (λ x. option_map (λ c. length (spelling c))
            (resent_at self.now place) ≡ Some x.1) }
        ensures written { IfSome result (λ x. option_map spelling (resent_at self.now place) ≡ Some
            (take x.1 out.new)) }
        ensures rest { drop (sent_length result) out.new ≡ drop (sent_length result) out.old }
    {
        self.core.resend_at(place, out)
    }

    /// How many commands are outstanding.
    pub fn outstanding(&self) -> usize
        ensures count { result ≡ length self.now.outstanding }
        ensures few { result ≤ 32 }
    {
        self.core.outstanding()
    }

    /// The write of a lane whose client was given challenges, and which waits for its proof: that has to be one of its
    /// key and public part. None where the lane has none, or there is no such lane.
    pub fn challenged(&self, lane: u16) -> Option<ChallengedWrite<'_>>
        ensures { option_map plain_challenged result ≡ challenged_in (row_at self.now lane) }
    {
        self.core.challenged(lane)
    }

    /// How a lane stands; as one with no request where there is no such lane.
    pub fn standing(&self, lane: u16) -> Standing
        ensures { result ≡ standing_in (row_at self.now lane) }
    {
        self.core.standing(lane)
    }

    /// How many boxes stand.
    pub fn count(&self) -> u32
        ensures { result ≡ length self.now.boxes }
    {
        self.core.boxes.count()
    }

    /// The share of a box; zeros where there is no box of this number yet.
    pub fn share(&self, box_number: u32) -> &[u8]
        requires { box_number < self.now.settings.boxes }
        ensures { result.now ≡ share_in self.now box_number }
    {
        self.core.boxes.share(box_number)
    }
}
