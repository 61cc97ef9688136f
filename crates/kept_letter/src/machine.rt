//! A letter on its way as the machine that its records give.
use crate::letter::LetterOnItsWay;
use crate::note::LetterNote;
use crate::opening::LetterOpening;
use client_core::Client;
use express_words::NoMemory;
use kept_machine::{Machine, Takes};
use node_journal::RECORD_MAX;
use std::alloc::Global;

/// A letter on its way, and the client that was made ahead for its next lease.
#[derive(Drop)]
pub struct KeptLetter {
    pub(crate) letter: LetterOnItsWay,
    pub(crate) ahead: Option<Client>,
}

impl KeptLetter {
    ghost use Rattle.std.specs.Prelude.{◌≡◌, OnOk, OnErr};
    ghost use Rattle.kept_letter.specs.Machines.{HasMemoryFor, TakesMemory};
    ghost use Rattle.kept_letter.specs.Letters.{step_of};
    ghost use Rattle.kept_letter.specs.Notes.{IsNote, plain_note};

    /// The letter.
    pub fn letter(&self) -> &LetterOnItsWay
        ensures { result.now ≡ self.now.letter }
    {
        &self.letter
    }

    // Takes the memory that the step of a note needs.
    fn make_ahead(&mut self, alloc: Global, note: &LetterNote<'_>) -> Result<(), NoMemory>
        requires { IsNote (plain_note note.now) }
        ensures same { self.new.letter ≡ self.old.letter }
        ensures taken { OnOk result (HasMemoryFor self.new (plain_note note.now)) }
        ensures wanted { OnErr result (TakesMemory (plain_note note.now)) }
    {
        if let LetterNote::Leased(at) = note {
            self.ahead = self.letter.client_for(alloc, at)?;
        }
        Ok(())
    }

    // The step of a note.
    fn step_of(&mut self, note: &LetterNote<'_>)
        requires { HasMemoryFor self.old (plain_note note.now) }
        ensures { self.new.letter ≡ step_of self.old.letter (plain_note note.now) }
    {
        match *note {
            LetterNote::Text(bytes) => self.letter.add_text(bytes),
            LetterNote::Begins => self.letter.begin(),
            LetterNote::Leased(_) => {
                let ahead = self.ahead.take();
                self.letter.lease(ahead);
            }
            LetterNote::ProofGoes => self.letter.note_proof(),
            LetterNote::Heard(frame) => self.letter.hear(frame),
            LetterNote::Told(told) => self.letter.be_told(told),
        }
    }
}

impl Machine for KeptLetter {
    ghost use Rattle.kept_letter.specs.Machines.{letter_rules};
    ghost use Rattle.kept_letter.specs.MachineLaws.{letter_rules_hold};

    ghost rules = { letter_rules };

    fn is_opening(first: &[u8]) -> bool {
        match LetterOpening::of(first) {
            Some(_) => true,
            None => false,
        }
    }

    fn is_record(bytes: &[u8]) -> bool {
        match LetterNote::of(bytes) {
            Some(_) => true,
            None => false,
        }
    }

    fn open(alloc: Global, first: &[u8]) -> Result<KeptLetter, NoMemory> {
        let Some(opening) = LetterOpening::of(first) else {
            unreachable!()
        };
        match LetterOnItsWay::open(alloc, &opening) {
            Ok(letter) => Ok(KeptLetter {
                letter,
                ahead: None,
            }),
            Err(NoMemory) => Err(NoMemory),
        }
    }

    fn take_memory(&mut self, alloc: Global, bytes: &[u8]) -> Result<(), NoMemory> {
        let Some(note) = LetterNote::of(bytes) else {
            unreachable!()
        };
        self.make_ahead(alloc, &note)
    }

    fn step(&mut self, bytes: &[u8]) {
        let Some(note) = LetterNote::of(bytes) else {
            unreachable!()
        };
        self.step_of(&note);
    }

    ghost rules_hold = { letter_rules_hold };
}

impl<'a> Takes<LetterNote<'a>> for KeptLetter {
    type Told = ();

    ghost use Rattle.std.specs.Prelude.{Some};
    ghost use Rattle.kept_letter.specs.Machines.{IsInput};
    ghost use Rattle.kept_letter.specs.Notes.{note_record, plain_note};

    ghost is_input = { λ note. IsInput (plain_note note) };

    ghost record_of = { λ note. Some (note_record (plain_note note)) };

    ghost tells = { λ note before now told out out_new. Unit {0} };

    ghost most = { 0 };

    fn record<'r>(input: &LetterNote<'a>, room: &'r mut [u8; RECORD_MAX]) -> Option<&'r [u8]> {
        Some(input.record(room))
    }

    fn take(&mut self, input: &LetterNote<'a>, _out: &mut [u8]) {
        self.step_of(input);
    }

    ghost tells_of_same = { λ note a b now told out out_new same tells. tells };
}
