//! The state of a run: the two servers, the clients, and all frames that were ever sent.
ghost use Rattle.std.specs.Prelude.{◌≤◌, length};

use crate::asker::Asker;
use crate::asking::all_askers;
use crate::at_leader;
use crate::lines::{JournalLine, OutcomeLine, Shown};
use crate::pool::{Letter, last_for, letter_at, post, server_of};
use chacha_expand::draw32;
use express_words::NoMemory;
use helper_core::Helper;
use leader_core::Leader;
use schedule_text::{Asked, Event, Header};
use std::alloc::Global;
use wire_frames::FRAME_MAX;

/// Both servers, the clients, the frames that are under way, and what was told until now.
#[derive(Drop)]
pub struct State {
    pub leader: Leader,
    pub helper: Helper,
    pub askers: Vec<Asker>,
    pub journal: Vec<JournalLine>,
    pub pool: Vec<Letter>,
    pub outcomes: Vec<OutcomeLine>,
    pub shown: Vec<Shown>,
    /// Room for a frame.
    pub out: Vec<u8>,
    ghost room: { 8213 ≤ length out.items },
}

impl State {
    ghost use Rattle.std.specs.Prelude.{◌≡◌, ◌<◌, ◌≤◌, length, IfOk, OnOk};
    ghost use Rattle.schedule_text.specs.Rules.{EventKeepsRules};
    ghost use Rattle.run_rules.specs.Letters.{opened, leader_seed, helper_seed};
    ghost use Rattle.step_rules.specs.Helper.{opened_helper};
    ghost use Rattle.step_rules.specs.Leader.{opened_leader};
    ghost use Rattle.run_rules.specs.Run.{asks, client_sends, delivers_at, frame_moves, happens, ticks};
    ghost use Rattle.replay_world.specs.Parts.{event_in, injected, request_in};
    ghost use Rattle.replay_world.specs.View.{run_in, Moves, Keeps, IsFit, IsWithin};

    /// The servers with no boxes, the clients with no request, and an empty pool.
    pub fn open(alloc: Global, header: &Header) -> Result<State, NoMemory>
        ensures opened { IfOk result (λ s. run_in header.now s ≡ opened header.now.settings header.now.seed) }
        ensures fit { IfOk result (IsFit header.now) }
    {
        let leader = Leader::open(alloc, &header.settings, &draw32(&header.seed, 0))?;
        let helper = Helper::open(alloc, &header.settings, &draw32(&header.seed, 257))?;
        State::between(alloc, header, leader, helper)
    }

    // Between these servers, which have no boxes.
    fn between(
        alloc: Global,
        header: &Header,
        leader: Leader,
        helper: Helper,
    ) -> Result<State, NoMemory>
        requires leader { leader ≡ opened_leader header.now.settings (leader_seed header.now.seed) }
        requires helper { helper ≡ opened_helper header.now.settings (helper_seed header.now.seed) }
        ensures opened { IfOk result (λ s. run_in header.now s ≡ opened header.now.settings header.now.seed) }
        ensures fit { IfOk result (IsFit header.now) }
    {
        let out = vec![in alloc; 0u8; FRAME_MAX]?;
        let askers = all_askers(alloc, header)?;
        Ok(State {
            leader,
            helper,
            askers,
            journal: Vec::new(alloc),
            pool: Vec::new(alloc),
            outcomes: Vec::new(alloc),
            shown: Vec::new(alloc),
            out,
        })
    }

    /// The frame of this number is delivered, where there is one.
    pub fn deliver(&mut self, alloc: Global, number: usize) -> Result<(), NoMemory>
        ensures moved { OnOk result (Moves (λ w. delivers_at w number) self.old self.new) }
        ensures keeps { Keeps self.old self.new }
    {
        let letter = match letter_at(number, self.pool.as_slice()) {
            None => return Ok(()),
            Some(letter) => letter.copied(alloc)?,
        };
        self.arrive(alloc, &letter)
    }

    /// The last frame for a client from this number on is delivered, where there is one.
    pub fn hand_last(&mut self, alloc: Global, lane: u16, from: usize) -> Result<(), NoMemory>
        ensures moved { OnOk result (Moves (λ w. frame_moves.hands_last w lane from) self.old self.new) }
        ensures keeps { Keeps self.old self.new }
    {
        if from >= self.pool.len() {
            return Ok(());
        }
        let letter = match last_for(lane, &self.pool[from..]) {
            None => return Ok(()),
            Some(letter) => letter.copied(alloc)?,
        };
        self.arrive(alloc, &letter)
    }

    /// The oldest outstanding command goes into the pool once more.
    pub fn tick(&mut self, alloc: Global) -> Result<(), NoMemory>
        ensures moved { OnOk result (Moves ticks self.old self.new) }
        ensures keeps { Keeps self.old self.new }
    {
        at_leader::tick(alloc, &self.leader, &mut self.pool, &mut self.out)
    }

    /// A client's present frame goes into the pool.
    pub fn send(&mut self, alloc: Global, lane: u16) -> Result<(), NoMemory>
        requires lane { lane < length self.old.askers.items }
        ensures moved { OnOk result (Moves (λ w. client_sends w lane) self.old self.new) }
        ensures keeps { Keeps self.old self.new }
    {
        match self.askers[usize::from(lane)].client.send(&mut self.out) {
            None => Ok(()),
            Some((server, length)) => post(
                alloc,
                &mut self.pool,
                server_of(server),
                &self.out[..length],
            ),
        }
    }

    /// A client is asked; the request waits behind its others.
    pub fn ask(&mut self, alloc: Global, lane: u16, asked: &Asked) -> Result<(), NoMemory>
        requires lane { lane < length self.old.askers.items }
        ensures moved { OnOk result (Moves (λ w. asks w lane (request_in asked.now)) self.old self.new) }
        ensures keeps { Keeps self.old self.new }
    {
        let asker = &mut self.askers[usize::from(lane)];
        asker.ask(alloc, lane, asked, &mut self.outcomes)
    }

    /// Bytes go into the pool as from clients.
    fn inject(&mut self, alloc: Global, server: u8, bytes: &[u8]) -> Result<(), NoMemory>
        ensures moved { OnOk result (Moves (λ w. happens w (injected server bytes.now)) self.old self.new) }
        ensures keeps { Keeps self.old self.new }
    {
        post(alloc, &mut self.pool, server_of(server), bytes)
    }

    /// One event of a schedule.
    pub fn event(&mut self, alloc: Global, event: &Event) -> Result<(), NoMemory>
        requires lane { IsWithin (length self.old.askers.items) event.now }
        ensures moved { OnOk result (Moves (λ w. happens w (event_in event.now)) self.old self.new) }
        ensures keeps { Keeps self.old self.new }
    {
        match event {
            Event::Ask(lane, asked) => self.ask(alloc, *lane, asked),
            Event::Send(lane) => self.send(alloc, *lane),
            Event::Tick => self.tick(alloc),
            Event::Deliver(number) => self.deliver(alloc, *number as usize),
            Event::Show(number) => self.show(alloc, *number),
            Event::Finish(lane) => self.finish(alloc, *lane),
            Event::Inject(server, bytes) => self.inject(alloc, *server, bytes.as_slice()),
        }
    }
}
