//! A client with the requests that wait at it.
ghost use Rattle.std.specs.Prelude.{◌≡◌, length};

use crate::asking::request_of;
use crate::lines::{OutcomeLine, Told};
use chacha_expand::draw32;
use client_core::{AskFault, Client, Outcome, Progress};
use express_words::{List, NoMemory};
use schedule_text::{Asked, Header};
use std::alloc::Global;
use std::collections::VecDeque;

/// A client, the requests that wait at it, and how many of its requests have an outcome.
#[derive(Drop)]
pub struct Asker {
    pub client: Client,
    pub waiting: VecDeque<Asked>,
    pub told: u32,
    /// Room for a message.
    pub message: Vec<u8>,
    ghost room: { length message.items ≡ client.width },
}

impl Asker {
    ghost use Rattle.std.specs.Prelude.{◌≡◌, ◌+◌, [], ◌++◌, ◌∷◌, IfOk, OnOk};
    ghost use Rattle.run_rules.specs.Run.{asks, goes_on, notes, to_client};
    ghost use Rattle.step_rules.specs.ClientReplies.{on_reply};
    ghost use Rattle.replay_world.specs.Parts.{outcomes_in, request_in, told_in};
    ghost use Rattle.replay_world.specs.View.{AskerMoves, fresh, requests_of};

    /// A client of this lane, which was asked nothing.
    pub fn open(alloc: Global, header: &Header, lane: u16) -> Result<Asker, NoMemory>
        ensures client { IfOk result (λ a. a.client ≡ fresh header.now lane) }
        ensures waiting { IfOk result (λ a. a.waiting.items ≡ []) }
        ensures told { IfOk result (λ a. a.told ≡ 0) }
    {
        let settings = &header.settings;
        let seed = draw32(&header.seed, u64::from(lane) + 1);
        let client = Client::open(alloc, lane, &seed, settings.width, settings.boxes + 1, 1)?;
        Ok(Asker {
            client,
            waiting: VecDeque::new(alloc),
            told: 0,
            message: vec![in alloc; 0u8; settings.width as usize]?,
        })
    }

    // Notes what became of the client's next request. More than 2^32 of them find no room.
    fn note(
        &mut self,
        alloc: Global,
        lane: u16,
        outcome: Told,
        outcomes: &mut Vec<OutcomeLine>,
    ) -> Result<(), NoMemory>
        ensures outcomes { OnOk result (outcomes_in outcomes.new.items ≡ outcomes_in outcomes.old.items
            ++ record { client = lane; request = self.old.told; told = told_in outcome self.old.message.items } ∷ []) }
        ensures told { OnOk result (self.new.told ≡ self.old.told + 1) }
        ensures client { self.new.client ≡ self.old.client }
        ensures waiting { self.new.waiting.items ≡ self.old.waiting.items }
    {
        let message = match outcome {
            Told::Done(Outcome::Message) => Vec::from_slice(alloc, &self.message)?,
            _ => Vec::new(alloc),
        };
        let request = self.told;
        self.told = request.checked_add(1).ok_or(NoMemory)?;
        outcomes.push(OutcomeLine {
            client: lane,
            request,
            outcome,
            message: List::from_vec(message),
        })?;
        Ok(())
    }

    // The client, which has no current request, takes the first that it need not refuse.
    fn go_on(
        &mut self,
        alloc: Global,
        lane: u16,
        outcomes: &mut Vec<OutcomeLine>,
    ) -> Result<(), NoMemory>
        ensures moved { AskerMoves (λ w. goes_on w lane (requests_of self.old)) lane self.old self.new
            outcomes.old.items outcomes.new.items result }
    {
        while let Some(asked) = self.waiting.pop_front() {
            match self.client.ask(&request_of(&asked)) {
                Ok(()) => return Ok(()),
                Err(fault) => match fault {
                    AskFault::NoBox(own) => self.note(alloc, lane, Told::NoOwn(own), outcomes)?,
                    _ => return Ok(()),
                },
            }
        }
        Ok(())
    }

    /// One more request waits, and is taken where the client has no current one.
    pub fn ask(
        &mut self,
        alloc: Global,
        lane: u16,
        asked: &Asked,
        outcomes: &mut Vec<OutcomeLine>,
    ) -> Result<(), NoMemory>
        ensures moved { AskerMoves (λ w. asks w lane (request_in asked.now)) lane self.old self.new
            outcomes.old.items outcomes.new.items result }
    {
        self.waiting.push_back(asked.copied(alloc)?)?;
        if self.client.is_idle() {
            self.go_on(alloc, lane, outcomes)
        } else {
            Ok(())
        }
    }

    /// A frame comes: where it finishes the current request, the outcome is noted and the client goes on.
    pub fn hear(
        &mut self,
        alloc: Global,
        lane: u16,
        frame: &[u8],
        outcomes: &mut Vec<OutcomeLine>,
    ) -> Result<(), NoMemory>
        ensures moved { AskerMoves (λ w. to_client w lane (on_reply self.old.client frame.now)) lane
            self.old self.new outcomes.old.items outcomes.new.items result }
    {
        match self.client.on_reply(frame, &mut self.message) {
            Progress::Finished(outcome) => {
                self.note(alloc, lane, Told::Done(outcome), outcomes)?;
                self.go_on(alloc, lane, outcomes)
            }
            _ => Ok(()),
        }
    }
}
