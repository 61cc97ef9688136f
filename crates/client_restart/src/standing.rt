//! A client with what it remembers.
ghost use Rattle.std.specs.Prelude.{◌≡◌, ◌<◌, ◌++◌, ◌∷◌, [], length, map, Some, IfOk, IsErr, option_map, vec_capacity};
ghost use Rattle.express_words.specs.Limits.{IsWidth};
ghost use Rattle.client_core.specs.Requests.{plain_request};
ghost use Rattle.client_restart.specs.Cores.{boxes_of, core_in, ended_by, ended_in, IsCore, HasRoomFor, TakesMemory};
ghost use Rattle.client_restart.specs.Notes.{plain_note, Told};
ghost use Rattle.client_restart.specs.Openings.{IsClientOpening};
ghost use Rattle.client_restart.specs.Steps.{asked, errand_of, heard, opened, owned, step_of};

use crate::ended::{Ended, kept_outcome};
use crate::errand::Errand;
use crate::note::Note;
use crate::opening::ClientOpening;
use crate::owned_box::OwnedBox;
use client_core::{Client, Outcome, Progress, Request};
use express_words::NoMemory;
use std::alloc::Global;

/// A client with the outcomes that weren't told yet, its boxes, and the words of the program above.
#[derive(Drop)]
pub(crate) struct ClientCore {
    pub(crate) client: Client,
    pub(crate) width: u32,
    pub(crate) untold: Vec<Ended>,
    pub(crate) boxes: Vec<OwnedBox>,
    pub(crate) remarks: Vec<Vec<u8>>,
}

fn zeros(alloc: Global, count: u32) -> Result<Vec<u8>, NoMemory>
    ensures { IfOk result (λ bytes. length bytes.items ≡ count) }
{
    match vec![in alloc; 0u8; count as usize] {
        Ok(bytes) => Ok(bytes),
        Err(_) => Err(NoMemory),
    }
}

fn copy_of(alloc: Global, words: &[u8]) -> Result<Vec<u8>, NoMemory>
    ensures { IfOk result (λ bytes. bytes.items ≡ words.now) }
{
    match Vec::from_slice(alloc, words) {
        Ok(bytes) => Ok(bytes),
        Err(_) => Err(NoMemory),
    }
}

impl ClientCore {
    /// The client before its first note.
    pub(crate) fn open(alloc: Global, opening: &ClientOpening) -> Result<ClientCore, NoMemory>
        requires is { IsClientOpening opening.now }
        ensures opened { IfOk result (λ k. core_in k ≡ opened opening.now) }
        ensures is { IfOk result IsCore }
    {
        let client = Client::open(
            alloc,
            opening.lane,
            &opening.seed,
            opening.width,
            opening.capacity,
            opening.first_serial,
        )?;
        Ok(ClientCore {
            client,
            width: opening.width,
            untold: Vec::new(alloc),
            boxes: Vec::new(alloc),
            remarks: Vec::new(alloc),
        })
    }

    // Room for a reply that may end a request.
    fn room_for_reply(&mut self, alloc: Global) -> Result<Vec<u8>, NoMemory>
        requires is { IsCore self.old }
        ensures same { core_in self.new ≡ core_in self.old }
        ensures width { IfOk result (λ room. length room.items ≡ self.new.width) }
        ensures untold { IfOk result (λ _. length self.new.untold.items < vec_capacity self.new.untold) }
        ensures boxes { IfOk result (λ _. length self.new.boxes.items < vec_capacity self.new.boxes) }
        ensures is { IsCore self.new }
    {
        if self.untold.reserve(1).is_err() || self.boxes.reserve(1).is_err() {
            return Err(NoMemory);
        }
        zeros(alloc, self.width)
    }

    // Room for words.
    fn room_for_words(&mut self, alloc: Global, words: &[u8]) -> Result<Vec<u8>, NoMemory>
        requires is { IsCore self.old }
        ensures same { core_in self.new ≡ core_in self.old }
        ensures words { IfOk result (λ room. room.items ≡ words.now) }
        ensures remarks { IfOk result (λ _. length self.new.remarks.items < vec_capacity self.new.remarks) }
        ensures is { IsCore self.new }
    {
        if self.remarks.reserve(1).is_err() {
            return Err(NoMemory);
        }
        copy_of(alloc, words)
    }

    // Room for a box.
    fn room_for_box(&mut self, alloc: Global) -> Result<Vec<u8>, NoMemory>
        requires is { IsCore self.old }
        ensures same { core_in self.new ≡ core_in self.old }
        ensures boxes { IfOk result (λ _. length self.new.boxes.items < vec_capacity self.new.boxes) }
        ensures is { IsCore self.new }
    {
        if self.boxes.reserve(1).is_err() {
            return Err(NoMemory);
        }
        Ok(Vec::new(alloc))
    }

    /// Takes the memory that the step of a note needs.
    pub(crate) fn room_for(&mut self, alloc: Global, note: &Note<'_>) -> Result<Vec<u8>, NoMemory>
        requires is { IsCore self.old }
        ensures same { core_in self.new ≡ core_in self.old }
        ensures room { IfOk result (λ room. HasRoomFor self.new (plain_note note.now) room.items) }
        ensures memory { IsErr result → TakesMemory (plain_note note.now) }
        ensures is { IsCore self.new }
    {
        match *note {
            Note::Heard(_) => self.room_for_reply(alloc),
            Note::Remark(words) => self.room_for_words(alloc, words),
            Note::Owned(_) => self.room_for_box(alloc),
            Note::Asked(_) => Ok(Vec::new(alloc)),
            Note::Told => Ok(Vec::new(alloc)),
            Note::GivenUp => Ok(Vec::new(alloc)),
        }
    }

    fn ask(&mut self, request: &Request<'_>)
        requires is { IsCore self.old }
        ensures asked { core_in self.new ≡ asked (core_in self.old) (plain_request request.now) }
        ensures is { IsCore self.new }
    {
        let _ = self.client.ask(request);
    }

    fn errand(&self) -> Option<Errand>
        ensures { result ≡ option_map (λ now. errand_of now.request) self.now.client.current }
    {
        match self.client.request() {
            None => None,
            Some(request) => Some(Errand::of(&request)),
        }
    }

    // A request has ended.
    fn end(&mut self, serial: u32, errand: Errand, outcome: Outcome, message: Vec<u8>)
        requires untold { length self.old.untold.items < vec_capacity self.old.untold }
        requires boxes { length self.old.boxes.items < vec_capacity self.old.boxes }
        ensures client { self.new.client ≡ self.old.client }
        ensures width { self.new.width ≡ self.old.width }
        ensures untold { map ended_in self.new.untold.items ≡ map ended_in self.old.untold.items
            ++ ended_by serial errand outcome message.items ∷ [] }
        ensures boxes { self.new.boxes.items ≡ boxes_of self.old.boxes.items serial outcome }
        ensures remarks { self.new.remarks ≡ self.old.remarks }
    {
        if let Outcome::Registered(number) = outcome {
            self.boxes.push_reserved(OwnedBox { number, serial });
        }
        self.untold.push_reserved(Ended {
            serial,
            errand,
            outcome: kept_outcome(outcome, message),
        });
    }

    // A reply to the current request, which is this errand.
    fn hear_for(&mut self, errand: Errand, frame: &[u8], room: Vec<u8>)
        requires is { IsCore self.old }
        requires errand { option_map (λ now. errand_of now.request) self.old.client.current ≡ Some errand }
        requires width { length room.items ≡ self.old.width }
        requires untold { length self.old.untold.items < vec_capacity self.old.untold }
        requires boxes { length self.old.boxes.items < vec_capacity self.old.boxes }
        ensures heard { core_in self.new ≡ heard (core_in self.old) frame.now }
        ensures is { IsCore self.new }
    {
        let serial = self.client.serial() as u32;
        let mut message = room;
        match self.client.on_reply(frame, &mut message) {
            Progress::Finished(outcome) => self.end(serial, errand, outcome, message),
            Progress::Ignored => {}
            Progress::Later(_) => {}
            Progress::Next => {}
        }
    }

    fn hear(&mut self, frame: &[u8], room: Vec<u8>)
        requires is { IsCore self.old }
        requires width { length room.items ≡ self.old.width }
        requires untold { length self.old.untold.items < vec_capacity self.old.untold }
        requires boxes { length self.old.boxes.items < vec_capacity self.old.boxes }
        ensures heard { core_in self.new ≡ heard (core_in self.old) frame.now }
        ensures is { IsCore self.new }
    {
        match self.errand() {
            None => {}
            Some(errand) => self.hear_for(errand, frame, room),
        }
    }

    fn tell(&mut self)
        requires is { IsCore self.old }
        ensures told { core_in self.new ≡ step_of (core_in self.old) Told }
        ensures is { IsCore self.new }
    {
        if !self.untold.is_empty() {
            let _ = self.untold.remove(0);
        }
    }

    fn own(&mut self, more: &OwnedBox)
        requires is { IsCore self.old }
        requires room { length self.old.boxes.items < vec_capacity self.old.boxes }
        ensures owned { core_in self.new ≡ owned (core_in self.old) more.now.number more.now.serial }
        ensures is { IsCore self.new }
    {
        if self.client.is_idle() && self.client.own(more.number, more.serial) {
            self.boxes.push_reserved(*more);
        }
    }

    /// The step of a note.
    pub(crate) fn step(&mut self, note: &Note<'_>, room: Vec<u8>)
        requires is { IsCore self.old }
        requires room { HasRoomFor self.old (plain_note note.now) room.items }
        ensures step { core_in self.new ≡ step_of (core_in self.old) (plain_note note.now) }
        ensures is { IsCore self.new }
    {
        match *note {
            Note::Asked(request) => self.ask(&request),
            Note::Heard(frame) => self.hear(frame, room),
            Note::Told => self.tell(),
            Note::GivenUp => self.client.give_up(),
            Note::Owned(more) => self.own(&more),
            Note::Remark(_) => self.remarks.push_reserved(room),
        }
    }
}
