//! The helper over its stores and its link.
ghost use Rattle.std.specs.Prelude.{◌≡◌, ◌+◌, ◌<◌, ◌≤◌, IfOk, Some, true, length, take, drop, option_map, slice_get};
ghost use Rattle.frame_rules.specs.Spelling.{IsFrame};
ghost use Rattle.frame_rules.specs.Frames.{plain, plain_body};
ghost use Rattle.frame_rules.specs.Whole.{has_width, is_command};
ghost use Rattle.frame_rules.specs.Room.{HasRoom};
ghost use Rattle.server_boxes.specs.Challenged.{plain_challenged};
ghost use Rattle.step_rules.specs.Helper.{opened_helper, row_at, written};
ghost use Rattle.step_rules.specs.HelperClients.{on_client};
ghost use Rattle.step_rules.specs.HelperCommands.{on_link_bytes, link_steps, carried_with, carries_out, carry_steps};
ghost use Rattle.helper_core.specs.Challenged.{challenged_in};
ghost use Rattle.helper_core.specs.State.{share_in, IsCarriedFrame};
ghost use Rattle.helper_core.specs.Turns.{DoesClient, DoesLink};

use crate::server::Server;
use dpf_eval::Steps;
use express_words::{NoMemory, Settings};
use frame_rules::{FRAME_MAX, Frame};
use link_order::{Arrival, Incoming};
use server_boxes::ChallengedWrite;
use std::alloc::Global;
use std::marker::Model;
use std::sync::ledger::Ledger;
use wire_frames::{Received, encode_into, on_link};

/// What the helper did with bytes of the leader.
#[derive(Clone, Copy, Debug, PartialEq, Eq)]
pub enum LinkTurn {
    /// The command was carried out now; its reply has so many bytes.
    Carried(usize),
    /// The command was carried out before; its kept reply has so many bytes.
    Repeated(usize),
    /// The bytes aren't one command of the width, or its number is neither the next nor one that is kept.
    Ignored,
}

/// Server 1: its boxes, its shares, what it holds of each lane, and its link. All of its memory is taken when it is
/// opened.
#[derive(Drop)]
pub struct Helper {
    server: Server,
    link: Incoming,
    masked: Vec<u8>,
}

impl Model for Helper {
    ghost use Rattle.step_rules.specs.Helper.{Helper as Steps};
    ghost use Rattle.helper_core.specs.State.{helper_in, IsHelper};

    ghost Value = { Steps };

    ghost view = { λ h. helper_in h.server h.link };

    ghost invariant = { λ h. IsHelper h.server h.link h.masked.items };
}

impl Helper {
    /// A helper with no boxes, which has carried nothing out. Its draws come from `seed`.
    pub fn open(alloc: Global, settings: &Settings, seed: &[u8; 32]) -> Result<Helper, NoMemory>
        ensures { IfOk result (λ h. h ≡ opened_helper settings.now seed.now) }
    {
        let server = Server::open(alloc, settings, seed)?;
        let link = Incoming::open(alloc, settings.window, FRAME_MAX as u32)?;
        match vec![in alloc; 0u8; settings.width as usize] {
            Ok(masked) => Ok(Helper {
                server,
                link,
                masked,
            }),
            Err(_) => Err(NoMemory),
        }
    }

    /// A frame of a client: writes one reply to the front of `out`, and gives its length. Any bytes get a reply.
    pub fn hear_client(&mut self, received: &Received<'_>, out: &mut [u8]) -> usize
        requires room { HasRoom out.old }
        ensures { DoesClient (on_client self.old received.now) self.old self.new result out.old out.new }
    {
        self.server.hear_client(received, out)
    }

    /// A frame of a client, likewise.
    pub fn on_client(&mut self, frame: &[u8], out: &mut [u8]) -> usize
        requires room { HasRoom out.old }
        ensures { DoesClient (on_client self.old frame.now) self.old self.new result out.old out.new }
    {
        self.hear_client(&Received::of(frame), out)
    }

    /// Bytes of the leader: carries a command out in the order of the link's numbers, or gives the kept reply, which is
    /// written to the front of `out`. `steps` counts each node that an audit expands.
    pub fn hear_link<L: Ledger>(
        &mut self,
        received: &Received<'_>,
        out: &mut [u8],
        steps: &mut Steps<L>,
    ) -> LinkTurn
        requires room { HasRoom out.old }
        ensures turn { DoesLink (on_link_bytes self.old received.now) self.old self.new result out.old out.new }
        ensures steps { steps.new ≡ steps.old + link_steps self.old received.now }
    {
        let Some(command) = received.command(self.server.width()) else {
            return LinkTurn::Ignored;
        };
        match self.link.arrival(command.link) {
            Arrival::Passed => LinkTurn::Ignored,
            Arrival::Kept(reply) => {
                out[..reply.len()].copy_from_slice(reply);
                LinkTurn::Repeated(reply.len())
            }
            Arrival::Next => LinkTurn::Carried(self.carry(&command, out, steps)),
        }
    }

    /// Bytes of the leader, likewise.
    pub fn on_link<L: Ledger>(
        &mut self,
        frame: &[u8],
        out: &mut [u8],
        steps: &mut Steps<L>,
    ) -> LinkTurn
        requires room { HasRoom out.old }
        ensures turn { DoesLink (on_link_bytes self.old frame.now) self.old self.new result out.old out.new }
        ensures steps { steps.new ≡ steps.old + link_steps self.old frame.now }
    {
        self.hear_link(&Received::of(frame), out, steps)
    }

    /// Carries the next command out and keeps its reply, which has the length that is given.
    #[tactic(auto, using(frame_rules::proofs::GrammarLaws::spelling_limit))]
    fn carry<L: Ledger>(
        &mut self,
        command: &Frame<'_>,
        out: &mut [u8],
        steps: &mut Steps<L>,
    ) -> usize
        requires room { HasRoom out.old }
        requires is_frame { IsFrame (plain command.now) }
        requires class { is_command (plain_body command.now.body) ≡ true }
        requires width { has_width self.old.server.settings.width (plain_body command.now.body) ≡ true }
        requires next { command.now.link ≡ self.old.carried + 1 }
        ensures helper { self.new ≡ (carried_with self.old (plain command.now) (carries_out self.old.server
            (plain command.now))).helper }
        ensures length { result ≡ length (written (carried_with self.old (plain command.now)
            (carries_out self.old.server (plain command.now))).answer) }
        ensures written { take result out.new ≡ written (carried_with self.old (plain command.now)
            (carries_out self.old.server (plain command.now))).answer }
        ensures rest { drop result out.new ≡ drop result out.old }
        ensures steps { steps.new ≡ steps.old + carry_steps self.old.server (plain command.now) }
        ensures settings { self.new.server.settings ≡ self.old.server.settings }
        ensures frame { IsCarriedFrame (carried_with self.old (plain command.now)
            (carries_out self.old.server (plain command.now))).answer }
    {
        let said = self.server.carry_out(command, &mut self.masked, steps);
        let body = said.body(&self.masked);
        let reply = on_link(command, command.link, &body);
        let length = encode_into(&reply, out);
        self.link.carry(&out[..length]);
        length
    }

    /// How many boxes stand.
    pub fn count(&self) -> u32
        ensures count { result ≡ length self.now.server.boxes }
        ensures within { result ≤ self.now.server.settings.boxes }
    {
        self.server.count()
    }

    /// The address of a box.
    pub fn address_of(&self, box_number: u32) -> u128
        requires { box_number < length self.now.server.boxes }
        ensures { option_map (λ found. found.address)
            (slice_get self.now.server.boxes box_number) ≡ Some result }
    {
        self.server.address_of(box_number)
    }

    /// The write of a lane that has begun and waits for its proof, which has to be one of its key and public part; None
    /// where the lane has none, or there is no such lane.
    pub fn challenged(&self, lane: u16) -> Option<ChallengedWrite<'_>>
        ensures { option_map plain_challenged result ≡ challenged_in (row_at self.now.server lane) }
    {
        self.server.challenged(lane)
    }

    /// The share of a box; zeros where there is no box of this number yet.
    pub fn share(&self, box_number: u32) -> &[u8]
        requires { box_number < self.now.server.settings.boxes }
        ensures { result.now ≡ share_in self.now.server box_number }
    {
        self.server.share(box_number)
    }
}
