//! A client over its state.
ghost use Rattle.std.specs.Prelude.{◌≡◌, ◌≤◌, ◌↔◌, length, take, drop, IfOk, IfErr, OnErr, Ok, Err, Some, None, option_map, is_none, nat_le, if◌then◌else◌, false};
ghost use Rattle.express_words.specs.Limits.{IsWidth};
ghost use Rattle.frame_rules.specs.Room.{HasRoom};
ghost use Rattle.step_rules.specs.Client.{opened_client};
ghost use Rattle.step_rules.specs.ClientAsks.{asked, fault_at, owning, sends, words};
ghost use Rattle.step_rules.specs.ClientReplies.{on_reply};
ghost use Rattle.client_core.specs.Requests.{plain_request, fault_in};
ghost use Rattle.client_core.specs.Answers.{addressed, bytes_of, progress_in, message_or};
ghost use Rattle.client_core.specs.GivingUp.{given_up};
ghost use Rattle.client_core.specs.LastProof.{at_last_proof};
ghost use Rattle.client_core.specs.Writes.{AreWords, SendsWrites};

use crate::progress::Progress;
use crate::request::{AskFault, Request};
use crate::state::ClientState;
use express_words::NoMemory;
use std::alloc::Global;
use std::marker::Model;
use wire_frames::encode_into;

/// A client of one lane: its own boxes, and at most one current request. All of its memory is taken at opening.
#[derive(Drop)]
pub struct Client {
    state: ClientState,
}

impl Model for Client {
    ghost use Rattle.step_rules.specs.Client.{Client as Steps};
    ghost use Rattle.client_core.specs.States.{client_in, IsState};

    ghost Value = { Steps };

    ghost view = { λ c. client_in c.state };

    ghost invariant = { λ c. IsState c.state };
}

impl Client {
    /// A client that owns no box and has no request. What it draws comes from `seed`, under the serials of its
    /// requests, of which the first is `first_serial`. It has room for `capacity` boxes, at most 4,097, and its
    /// messages have `width` bytes.
    pub fn open(
        alloc: Global,
        lane: u16,
        seed: &[u8; 32],
        width: u32,
        capacity: u32,
        first_serial: u32,
    ) -> Result<Client, NoMemory>
        requires width { IsWidth width }
        requires capacity { capacity ≤ 4097 }
        requires serial { 1 ≤ first_serial }
        ensures opened { IfOk result (λ c. c ≡ opened_client lane seed.now width capacity first_serial) }
        ensures width { IfOk result (λ c. c.width ≡ width) }
        ensures idle { IfOk result (λ c. c.current ≡ None) }
    {
        let state = ClientState::open(alloc, lane, seed, width, capacity, first_serial)?;
        Ok(Client { state })
    }

    /// Owns the box of this number, which an earlier run registered with this serial; false exactly where `capacity`
    /// boxes are owned.
    pub fn own(&mut self, box_number: u32, serial: u32) -> bool
        requires idle { self.old.current ≡ None }
        ensures owned { owning self.old box_number serial ≡ (if result then Some self.new else None) }
        ensures same { result ≡ false → self.new ≡ self.old }
        ensures width { self.new.width ≡ self.old.width }
        ensures idle { self.new.current ≡ None }
    {
        if self.state.is_full() {
            return false;
        }
        self.state.add_box(box_number, serial);
        true
    }

    /// Whether there is no room for another own box.
    pub fn is_full(&self) -> bool
        ensures { result ≡ nat_le self.now.capacity (length self.now.owned) }
    {
        self.state.is_full()
    }

    /// Whether no request is current.
    pub fn is_idle(&self) -> bool
        ensures { result ≡ is_none self.now.current }
    {
        self.state.stage.is_none()
    }

    /// Why `ask` would not take this request; None exactly where it would. Nothing changes.
    pub fn fault_at(&self, request: &Request<'_>) -> Option<AskFault>
        ensures { option_map fault_in result
            ≡ fault_at self.now (plain_request request.now) self.now.current }
    {
        self.state.fault(request)
    }

    /// Takes a request, which is then current. The first of these that applies is the fault: another request is
    /// current, the last serial was used, the own box isn't there, the message has another width, no further box has
    /// room.
    pub fn ask(&mut self, request: &Request<'_>) -> Result<(), AskFault>
        ensures asked { IfOk result (λ _. asked self.old (plain_request request.now) ≡ Ok self.new) }
        ensures refused { IfErr result (λ fault.
            asked self.old (plain_request request.now) ≡ Err (fault_in fault)) }
        ensures same { OnErr result (self.new ≡ self.old) }
        ensures width { self.new.width ≡ self.old.width }
    {
        self.state.ask(request)
    }

    /// Writes the frame of the present step to the front of `out`, and gives the server that it goes to, the leader 0
    /// or the helper 1, and its length in bytes. None exactly where no request is current. The frame is the same each
    /// time.
    pub fn send(&self, out: &mut [u8]) -> Option<(u8, usize)>
        requires room { HasRoom out.old }
        ensures none { (result ≡ None) ↔ (self.now.current ≡ None) }
        ensures sent { result ≡ option_map addressed (sends self.now) }
        ensures written { take (length (bytes_of (sends self.now))) out.new ≡ bytes_of (sends self.now) }
        ensures rest { let count = length (bytes_of
            (sends self.now)) in drop count out.new ≡ drop count out.old }
        // The frames of a write are the honest keys and the proof of the sixteen words that were drawn for its serial,
        // with lane and serial, and nothing else.
        ensures write { SendsWrites self.now }
        ensures words { AreWords (words self.now) }
    {
        match self.state.stage {
            None => None,
            Some(stage) => {
                let frame = self.state.frame(&stage);
                Some((stage.server(), encode_into(&frame, out)))
            }
        }
    }

    /// Takes a server's bytes, which may be any, as a reply to the present step. The message of a read or a retire that
    /// is finished by it is written to `message`, which else stays.
    pub fn on_reply(&mut self, frame: &[u8], message: &mut [u8]) -> Progress
        requires width { length message.old ≡ self.old.width }
        ensures client { self.new ≡ (on_reply self.old frame.now).client }
        ensures progress { result ≡ progress_in (on_reply self.old frame.now).progress }
        ensures message { message.new ≡ message_or message.old (on_reply self.old frame.now).progress }
        ensures width { self.new.width ≡ self.old.width }
    {
        self.state.on_reply(frame, message)
    }

    /// What `on_reply` would answer to these bytes. Nothing changes.
    pub fn progress_at(&self, frame: &[u8]) -> Progress
        ensures { result ≡ progress_in (on_reply self.now frame.now).progress }
    {
        self.state.progress_at(frame)
    }

    /// Whether the present step is a write's last proof, the one to the leader.
    pub fn is_at_last_proof(&self) -> bool
        ensures { result ≡ at_last_proof self.now.current }
    {
        match self.state.stage {
            None => false,
            Some(stage) => stage.is_last_proof(),
        }
    }

    /// The current request.
    pub fn request(&self) -> Option<Request<'_>>
        ensures { option_map plain_request result ≡ option_map (λ now. now.request) self.now.current }
    {
        self.state.request()
    }

    /// The serial of the current request, or else of the next one; 2^32 where all are spent.
    pub fn serial(&self) -> u64
        ensures { result ≡ self.now.serial }
    {
        self.state.serial
    }

    /// Drops the current request, if there is one. Its serial stays used: the next request takes the next one.
    pub fn give_up(&mut self)
        ensures given_up { self.new ≡ given_up self.old }
        ensures idle { self.new.current ≡ None }
        ensures width { self.new.width ≡ self.old.width }
    {
        self.state.give_up();
    }
}
