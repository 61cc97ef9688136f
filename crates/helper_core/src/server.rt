//! The helper's stores but for the link.
ghost use Rattle.std.specs.Prelude.{◌≡◌, ◌<◌, ◌≤◌, IfOk, Some, length, take, drop, option_map, slice_get};
ghost use Rattle.frame_rules.specs.Spelling.{spelling};
ghost use Rattle.frame_rules.specs.Room.{HasRoom};
ghost use Rattle.server_boxes.specs.Challenged.{plain_challenged};
ghost use Rattle.step_rules.specs.Helper.{opened_server, row_at};
ghost use Rattle.step_rules.specs.HelperClients.{client_turn};
ghost use Rattle.helper_core.specs.Challenged.{challenged_in};
ghost use Rattle.helper_core.specs.State.{share_in};

use crate::rows::answer_client;
use crate::slot::{HelperSlot, idle_slots};
use express_words::{NoMemory, Settings};
use server_boxes::{ChallengedWrite, ServerBoxes};
use std::alloc::Global;
use std::marker::Model;
use wire_frames::{Received, encode_into};

/// Server 1's boxes and shares, and what it holds of each lane.
#[derive(Drop)]
pub(crate) struct Server {
    pub(crate) settings: Settings,
    pub(crate) boxes: ServerBoxes,
    pub(crate) slots: Vec<HelperSlot>,
    pub(crate) draws: u64,
    pub(crate) seed: [u8; 32],
}

impl Model for Server {
    ghost use Rattle.step_rules.specs.Helper.{Server as Steps};
    ghost use Rattle.helper_core.specs.State.{server_in, IsServer};

    ghost Value = { Steps };

    ghost view = { λ h. server_in h.settings h.boxes h.slots.items h.draws h.seed };

    ghost invariant = { λ h. IsServer h.settings h.boxes h.slots.items };
}

impl Server {
    /// No boxes, and of each lane no frame.
    pub(crate) fn open(
        alloc: Global,
        settings: &Settings,
        seed: &[u8; 32],
    ) -> Result<Server, NoMemory>
        ensures { IfOk result (λ h. h ≡ opened_server settings.now seed.now) }
    {
        let boxes = ServerBoxes::open(alloc, settings.boxes, settings.width)?;
        let slots = idle_slots(alloc, settings)?;
        Ok(Server {
            settings: *settings,
            boxes,
            slots,
            draws: 0,
            seed: *seed,
        })
    }

    /// A frame of a client: writes one reply to the front of `out`, and gives its length.
    pub(crate) fn hear_client(&mut self, received: &Received<'_>, out: &mut [u8]) -> usize
        requires room { HasRoom out.old }
        ensures server { self.new ≡ (client_turn self.old received.now).server }
        ensures settings { self.new.settings ≡ self.old.settings }
        ensures draws { self.new.draws ≡ self.old.draws }
        ensures length { result ≡ length (spelling (client_turn self.old received.now).reply) }
        ensures written { take result out.new ≡ spelling (client_turn self.old received.now).reply }
        ensures rest { drop result out.new ≡ drop result out.old }
    {
        let reply = answer_client(&mut self.slots, self.settings.lanes, received);
        encode_into(&reply, out)
    }

    /// The bytes of a message.
    pub(crate) fn width(&self) -> u32
        ensures { result ≡ self.now.settings.width }
    {
        self.settings.width
    }

    pub(crate) fn count(&self) -> u32
        ensures count { result ≡ length self.now.boxes }
        ensures within { result ≤ self.now.settings.boxes }
    {
        self.boxes.count()
    }

    pub(crate) fn address_of(&self, number: u32) -> u128
        requires { number < length self.now.boxes }
        ensures { option_map (λ found. found.address) (slice_get self.now.boxes number) ≡ Some result }
    {
        self.boxes.address_of(number)
    }

    /// The write of a lane that waits for its proof.
    pub(crate) fn challenged(&self, lane: u16) -> Option<ChallengedWrite<'_>>
        ensures { option_map plain_challenged result ≡ challenged_in (row_at self.now lane) }
    {
        let place = usize::from(lane);
        if self.slots.len() <= place {
            return None;
        }
        self.slots[place].challenged()
    }

    pub(crate) fn share(&self, number: u32) -> &[u8]
        requires { number < self.now.settings.boxes }
        ensures { result.now ≡ share_in self.now number }
    {
        self.boxes.share(number)
    }
}
