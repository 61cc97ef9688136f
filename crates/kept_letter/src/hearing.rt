//! What a letter makes of an answer.
ghost use Rattle.std.specs.Prelude.{◌≡◌, ◌≢◌, ◌≤◌, None, IfSome, length, option_map};
ghost use Rattle.frame_rules.specs.Whole.{whole as whole_of};
ghost use Rattle.step_rules.specs.Client as steps;
ghost use Rattle.step_rules.specs.ClientReplies.{on_reply};
ghost use Rattle.client_core.specs.Answers.{progress_in};
ghost use Rattle.kept_letter.specs.Letters.{answer_in, answer_told, gone_on, heard, key_in, told_of};

use crate::letter::LetterOnItsWay;
use crate::note::Told;
use client_core::{Client, Outcome, Progress};
use express_words::limits::MOST_WIDTH;
use frame_rules::Body;
use letter_copies::{Answer, Next};
use wire_frames::whole;

// What a client says of a frame, as an answer to its request.
fn answer_in(progress: Progress) -> Answer
    ensures { (p : steps.Progress) → progress ≡ progress_in p → result ≡ answer_in p }
{
    match progress {
        Progress::Next => Answer::Fits,
        Progress::Finished(Outcome::Accepted) => Answer::Accepted,
        Progress::Later(refusal) | Progress::Finished(Outcome::Refused(refusal)) => {
            Answer::Refused(refusal)
        }
        _ => Answer::Other,
    }
}

fn answer_told(told: Told) -> Answer
    ensures { result ≡ answer_told told }
{
    match told {
        Told::NotYours => Answer::NotYours,
        Told::Written => Answer::EndedWritten,
        Told::NotWritten => Answer::EndedNotWritten,
    }
}

// The key of the challenges, where the frame is a challenge.
fn key_in(frame: &[u8], key: Option<[u8; 32]>) -> Option<[u8; 32]>
    ensures { result ≡ key_in (whole_of frame.now) key }
{
    match whole(frame) {
        Ok(frame) => match frame.body {
            Body::Challenge { ckey } => Some(ckey),
            _ => key,
        },
        Err(_) => key,
    }
}

// A client behind a reply.
fn behind_reply(client: Client, frame: &[u8], width: u32) -> Client
    requires same { client.width ≡ width }
    requires few { width ≤ 4096 }
    ensures client { result ≡ (on_reply client frame.now).client }
    ensures width { result.width ≡ width }
{
    let mut client = client;
    let mut room = [0; MOST_WIDTH as usize];
    let _ = client.on_reply(frame, &mut room[..width as usize]);
    client
}

impl LetterOnItsWay {
    // What a frame answers to the present request.
    pub(crate) fn answer_to(&self, frame: &[u8]) -> Option<Answer>
        ensures { result ≡ option_map (λ c. answer_in (on_reply c frame.now).progress) self.now.client }
    {
        match &self.client {
            None => None,
            Some(client) => Some(answer_in(client.progress_at(frame))),
        }
    }

    // The client of the present try goes on behind this frame.
    fn go_on(&mut self, frame: &[u8])
        requires { IfSome self.old.client (λ c. (on_reply c frame.now).client.current ≢ None) }
        ensures { self.new ≡ gone_on self.old frame.now self.old.client }
    {
        if let Some(client) = self.client.take() {
            self.client = Some(behind_reply(client, frame, self.plan.card.width));
            self.key = key_in(frame, self.key);
        }
    }

    // The present try is over.
    fn end_try(&mut self)
        ensures { self.new ≡ record self.old { client = None; key = None } }
    {
        self.client = None;
        self.key = None;
    }

    // A server's frame came.
    #[tactic(auto, unfolding(crate::specs::Letters::heard))]
    pub(crate) fn hear(&mut self, frame: &[u8])
        ensures { self.new ≡ heard self.old frame.now }
    {
        let Some(answer) = self.answer_to(frame) else {
            return;
        };
        match self.copies.hear(answer) {
            Next::GoOn => self.go_on(frame),
            Next::SameAgain => {}
            Next::TryIsOver => self.end_try(),
        }
    }

    // A server told that the lane and serial are not the try's, or no longer.
    #[tactic(auto, unfolding(crate::specs::Letters::told_of))]
    pub(crate) fn be_told(&mut self, told: Told)
        ensures { self.new ≡ told_of self.old told }
    {
        if self.client.is_none() {
            return;
        }
        match self.copies.hear(answer_told(told)) {
            Next::GoOn | Next::SameAgain => {}
            Next::TryIsOver => self.end_try(),
        }
    }
}
