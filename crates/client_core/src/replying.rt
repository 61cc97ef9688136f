//! What a reply does to a client.
ghost use Rattle.std.specs.Prelude.{◌≡◌, ◌+◌, ◌<◌, ◌^◌, ℕ, List, length, Some, None, slice_get};
ghost use Rattle.step_rules.specs.ClientReplies.{unmasked, on_registered, on_message, on_reply};
ghost use Rattle.frame_rules.specs.Frames.{Registered, Message};
ghost use Rattle.client_core.specs.declared.progress.Progress.TheVariants.{Finished};
ghost use Rattle.client_core.specs.Answers.{progress_in, message_or};
ghost use Rattle.client_core.specs.Heard.{message_turn, turn_in, IsHeard};
ghost use Rattle.client_core.specs.States.{client_in, owned_in, IsState, held_in};

use crate::hearing::{Meaning, hear};
use crate::progress::{Outcome, Progress};
use crate::state::{ClientState, KeyedBox};
use chacha_expand::mask_into;
use dpf_rules::xor_into;
use wire_frames::whole;

impl ClientState {
    /// The request is finished.
    pub(crate) fn finish(&mut self)
        requires is { IsState self.old }
        requires unspent { self.old.serial < 2 ^ 32 }
        ensures rest { record self.old { stage = None; serial = self.old.serial + 1 } ≡ self.new }
        ensures is { IsState self.new }
    {
        self.stage = None;
        self.serial += 1;
    }

    // Writes both parts without their masks.
    fn unmask(&self, own: &KeyedBox, zero: &[u8], one: &[u8], message: &mut [u8])
        requires is { IsState self.now }
        requires unspent { self.now.serial < 2 ^ 32 }
        requires zero { length zero.now ≡ self.now.width }
        requires one { length one.now ≡ self.now.width }
        requires room { length message.old ≡ self.now.width }
        ensures { message.new ≡ unmasked (client_in self.now) (owned_in own.now) zero.now one.now }
    {
        let serial = self.current_serial();
        message.copy_from_slice(zero);
        mask_into(&own.key0, self.lane, serial, message);
        mask_into(&own.key1, self.lane, serial, message);
        xor_into(message, one);
    }

    // The request has ended so.
    fn ended(&mut self, outcome: Outcome) -> Progress
        requires is { IsState self.old }
        requires unspent { self.old.serial < 2 ^ 32 }
        ensures rest { record self.old { stage = None; serial = self.old.serial + 1 } ≡ self.new }
        ensures is { IsState self.new }
        ensures progress { result ≡ Finished outcome }
    {
        self.finish();
        Progress::Finished(outcome)
    }

    // What was heard happens.
    #[tactic(auto, unfolding(step_rules::specs::ClientReplies::on_registered))]
    fn obey(&mut self, heard: &Meaning<'_>, message: &mut [u8]) -> Progress
        requires is { IsState self.old }
        requires unspent { self.old.serial < 2 ^ 32 }
        requires heard { IsHeard (held_in self.old) heard.now }
        requires width { length message.old ≡ self.old.width }
        ensures client { client_in self.new
            ≡ (turn_in (client_in self.old) self.old.message.items heard.now).client }
        ensures progress { result
            ≡ progress_in (turn_in (client_in self.old) self.old.message.items heard.now).progress }
        ensures message { message.new
            ≡ message_or message.old (turn_in (client_in self.old) self.old.message.items heard.now).progress }
        ensures width { self.new.width ≡ self.old.width }
        ensures is { IsState self.new }
    {
        match *heard {
            Meaning::Nothing => Progress::Ignored,
            Meaning::Later(refusal) => Progress::Later(refusal),
            Meaning::Next(stage) => {
                self.stage = Some(stage);
                Progress::Next
            }
            Meaning::Registered(number) => {
                self.register(number);
                Progress::Finished(Outcome::Registered(number))
            }
            Meaning::Message(own, zero, one) => self.receive(own, zero, one, message),
            Meaning::Accepted => self.ended(Outcome::Accepted),
            Meaning::Refused(refusal) => self.ended(Outcome::Refused(refusal)),
        }
    }

    // The box of this number is the client's own, and the request is finished.
    fn register(&mut self, number: u32)
        requires is { IsState self.old }
        requires unspent { self.old.serial < 2 ^ 32 }
        requires room { length self.old.owned.items < self.old.capacity }
        ensures client { client_in self.new ≡ (on_registered (client_in self.old) (Registered number)).client }
        ensures width { self.new.width ≡ self.old.width }
        ensures is { IsState self.new }
    {
        let serial = self.current_serial();
        self.stage = None;
        self.add_box(number, serial);
        self.finish();
    }

    // A message of the width finishes the request.
    fn receive(&mut self, own: u32, zero: &[u8], one: &[u8], message: &mut [u8]) -> Progress
        requires is { IsState self.old }
        requires unspent { self.old.serial < 2 ^ 32 }
        requires own { own < length self.old.owned.items }
        requires parts { length zero.now ≡ length one.now }
        requires width { length message.old ≡ self.old.width }
        ensures client { client_in self.new
            ≡ (message_turn (client_in self.old) own zero.now one.now).client }
        ensures progress { result
            ≡ progress_in (message_turn (client_in self.old) own zero.now one.now).progress }
        ensures message { message.new
            ≡ message_or message.old (message_turn (client_in self.old) own zero.now one.now).progress }
        ensures width { self.new.width ≡ self.old.width }
        ensures is { IsState self.new }
    {
        if zero.len() != self.width as usize {
            return Progress::Ignored;
        }
        let own = *self.own_box(own);
        self.unmask(&own, zero, one, message);
        self.ended(Outcome::Message)
    }

    /// What the servers' bytes say to the current request.
    pub(crate) fn on_reply(&mut self, bytes: &[u8], message: &mut [u8]) -> Progress
        requires is { IsState self.old }
        requires width { length message.old ≡ self.old.width }
        ensures client { client_in self.new ≡ (on_reply (client_in self.old) bytes.now).client }
        ensures progress { result ≡ progress_in (on_reply (client_in self.old) bytes.now).progress }
        ensures message { message.new
            ≡ message_or message.old (on_reply (client_in self.old) bytes.now).progress }
        ensures width { self.new.width ≡ self.old.width }
        ensures is { IsState self.new }
    {
        match self.stage {
            None => Progress::Ignored,
            Some(stage) => match whole(bytes) {
                Err(_) => Progress::Ignored,
                Ok(frame) => {
                    let heard = hear(&stage, self.lane, self.serial, &frame);
                    self.obey(&heard, message)
                }
            },
        }
    }
}
