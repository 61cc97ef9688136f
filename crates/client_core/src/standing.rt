//! The current request: which it is, what a reply would do to it, and its giving up.
ghost use Rattle.std.specs.Prelude.{◌≡◌, ◌<◌, ◌^◌, ℕ, List, length, None, option_map};
ghost use Rattle.step_rules.specs.ClientReplies.{on_reply};
ghost use Rattle.client_core.specs.Answers.{progress_in};
ghost use Rattle.client_core.specs.GivingUp.{given_up};
ghost use Rattle.client_core.specs.Heard.{message_turn, turn_in, IsHeard};
ghost use Rattle.client_core.specs.Requests.{plain_request};
ghost use Rattle.client_core.specs.Stages.{request_in};
ghost use Rattle.client_core.specs.States.{client_in, IsState, held_in};

use crate::hearing::{Meaning, hear};
use crate::progress::{Outcome, Progress};
use crate::request::Request;
use crate::stage::BareRequest;
use crate::state::ClientState;
use wire_frames::whole;

impl ClientState {
    // The request of this task, with the message that is kept.
    fn request_of(&self, task: &BareRequest) -> Request<'_>
        ensures { plain_request result ≡ request_in task.now self.now.message.items }
    {
        match *task {
            BareRequest::Register(address) => Request::Register { address },
            BareRequest::Write(target) => Request::Write {
                target,
                message: &self.message,
            },
            BareRequest::Read(own) => Request::Read { own },
            BareRequest::Retire(own) => Request::Retire { own },
        }
    }

    /// The current request.
    pub(crate) fn request(&self) -> Option<Request<'_>>
        ensures { option_map plain_request result
            ≡ option_map (λ now. now.request) (client_in self.now).current }
    {
        match self.stage {
            None => None,
            Some(stage) => {
                let task = stage.task();
                Some(self.request_of(&task))
            }
        }
    }

    // What becomes of a message, whose parts these are.
    fn received(&self, own: u32, zero: &[u8], one: &[u8]) -> Progress
        requires own { own < length self.now.owned.items }
        ensures { result ≡ progress_in (message_turn (client_in self.now) own zero.now one.now).progress }
    {
        if zero.len() == self.width as usize {
            Progress::Finished(Outcome::Message)
        } else {
            Progress::Ignored
        }
    }

    // What becomes of what was heard.
    #[tactic(auto, unfolding(step_rules::specs::ClientReplies::on_registered))]
    fn progress_of(&self, heard: &Meaning<'_>) -> Progress
        requires heard { IsHeard (held_in self.now) heard.now }
        ensures { result
            ≡ progress_in (turn_in (client_in self.now) self.now.message.items heard.now).progress }
    {
        match *heard {
            Meaning::Nothing => Progress::Ignored,
            Meaning::Later(refusal) => Progress::Later(refusal),
            Meaning::Next(_) => Progress::Next,
            Meaning::Registered(number) => Progress::Finished(Outcome::Registered(number)),
            Meaning::Message(own, zero, one) => self.received(own, zero, one),
            Meaning::Accepted => Progress::Finished(Outcome::Accepted),
            Meaning::Refused(refusal) => Progress::Finished(Outcome::Refused(refusal)),
        }
    }

    /// What would become of a server's bytes.
    pub(crate) fn progress_at(&self, bytes: &[u8]) -> Progress
        requires is { IsState self.now }
        ensures { result ≡ progress_in (on_reply (client_in self.now) bytes.now).progress }
    {
        match self.stage {
            None => Progress::Ignored,
            Some(stage) => match whole(bytes) {
                Err(_) => Progress::Ignored,
                Ok(frame) => {
                    let heard = hear(&stage, self.lane, self.serial, &frame);
                    self.progress_of(&heard)
                }
            },
        }
    }

    /// There is no current request any more, and its serial is used.
    pub(crate) fn give_up(&mut self)
        requires is { IsState self.old }
        ensures given_up { client_in self.new ≡ given_up (client_in self.old) }
        ensures idle { self.new.stage ≡ None }
        ensures width { self.new.width ≡ self.old.width }
        ensures is { IsState self.new }
    {
        match self.stage {
            None => {}
            Some(_) => self.finish(),
        }
    }
}
