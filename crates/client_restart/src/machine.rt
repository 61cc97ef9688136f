//! A client as the machine that its records give.
use crate::note::Note;
use crate::opening::ClientOpening;
use crate::standing::ClientCore;
use express_words::NoMemory;
use kept_machine::{Machine, Takes};
use node_journal::RECORD_MAX;
use std::alloc::Global;
use std::mem;

/// A client, how it was opened, and the memory that it has taken for its next step.
#[derive(Drop)]
pub struct OpenedClient {
    pub(crate) alloc: Global,
    pub(crate) opening: ClientOpening,
    pub(crate) core: ClientCore,
    pub(crate) room: Vec<u8>,
}

impl Machine for OpenedClient {
    ghost use Rattle.client_restart.specs.Machines.{client_rules};
    ghost use Rattle.client_restart.specs.MachineLaws.{client_rules_hold};

    ghost rules = { client_rules };

    fn is_opening(first: &[u8]) -> bool {
        match ClientOpening::of(first) {
            Some(_) => true,
            None => false,
        }
    }

    fn is_record(bytes: &[u8]) -> bool {
        match Note::of(bytes) {
            Some(_) => true,
            None => false,
        }
    }

    fn open(alloc: Global, first: &[u8]) -> Result<OpenedClient, NoMemory> {
        let Some(opening) = ClientOpening::of(first) else {
            unreachable!()
        };
        match ClientCore::open(alloc, &opening) {
            Ok(core) => Ok(OpenedClient {
                alloc,
                opening,
                core,
                room: Vec::new(alloc),
            }),
            Err(NoMemory) => Err(NoMemory),
        }
    }

    fn take_memory(&mut self, alloc: Global, bytes: &[u8]) -> Result<(), NoMemory> {
        let Some(note) = Note::of(bytes) else {
            unreachable!()
        };
        match self.core.room_for(alloc, &note) {
            Ok(room) => {
                self.room = room;
                Ok(())
            }
            Err(NoMemory) => Err(NoMemory),
        }
    }

    fn step(&mut self, bytes: &[u8]) {
        let Some(note) = Note::of(bytes) else {
            unreachable!()
        };
        let room = mem::replace(&mut self.room, Vec::new(self.alloc));
        self.core.step(&note, room);
    }

    ghost rules_hold = { client_rules_hold };
}

impl<'a> Takes<Note<'a>> for OpenedClient {
    type Told = ();

    ghost use Rattle.std.specs.Prelude.{Some};
    ghost use Rattle.client_restart.specs.Machines.{IsInput};
    ghost use Rattle.client_restart.specs.Notes.{note_record, plain_note};

    ghost is_input = { λ note. IsInput (plain_note note) };

    ghost record_of = { λ note. Some (note_record (plain_note note)) };

    ghost tells = { λ note before now told out out_new. Unit {0} };

    ghost most = { 0 };

    fn record<'r>(input: &Note<'a>, room: &'r mut [u8; RECORD_MAX]) -> Option<&'r [u8]> {
        Some(input.record(room))
    }

    fn take(&mut self, input: &Note<'a>, _out: &mut [u8]) {
        let room = mem::replace(&mut self.room, Vec::new(self.alloc));
        self.core.step(input, room);
    }

    ghost tells_of_same = { λ note a b now told out out_new same tells. tells };
}
