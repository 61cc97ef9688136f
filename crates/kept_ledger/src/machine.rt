//! An owner's ledger as the machine that its records give.
use crate::entry::{NamedBoxes, Reading};
use crate::ledger::Ledger;
use crate::memory::{boxes_wanted, copy_of, zeros};
use crate::note::{CarriedReading, LedgerNote, MOST_AT_ONCE, WantedBoxes};
use crate::opening::LedgerOpening;
use express_words::{List, NoMemory};
use kept_machine::{Machine, Takes};
use node_journal::RECORD_MAX;
use std::alloc::Global;
use std::mem;

/// An owner's ledger, and the memory that it has taken for its next step.
#[derive(Drop)]
pub struct KeptLedger {
    pub(crate) alloc: Global,
    pub(crate) ledger: Ledger,
    // The boxes that the next name has.
    pub(crate) name: Option<NamedBoxes>,
    // Room for the next message, or the bytes of the next reading.
    pub(crate) bytes: Vec<u8>,
}

impl KeptLedger {
    ghost use Rattle.std.specs.Prelude.{◌≡◌, OnOk, OnErr};
    ghost use Rattle.kept_ledger.specs.Machines.{HasMemoryFor, TakesMemory};
    ghost use Rattle.kept_ledger.specs.Ledgers.{step_of};
    ghost use Rattle.kept_ledger.specs.Notes.{Named, Heard, Carried};
    ghost use Rattle.kept_ledger.specs.Notes.{IsNote, plain_note, plain_reading, plain_wanted};

    /// The ledger.
    pub fn ledger(&self) -> &Ledger
        ensures { result.now ≡ self.now.ledger }
    {
        &self.ledger
    }

    fn make_name(&mut self, alloc: Global, wanted: &WantedBoxes<'_>) -> Result<(), NoMemory>
        ensures same { self.new.ledger.state ≡ self.old.ledger.state }
        ensures taken { OnOk result (HasMemoryFor self.new (Named (plain_wanted wanted.now))) }
    {
        self.name = Some(boxes_wanted(alloc, wanted)?);
        self.ledger.reserve_name()
    }

    fn make_message(&mut self, alloc: Global, frame: &[u8]) -> Result<(), NoMemory>
        ensures same { self.new.ledger.state ≡ self.old.ledger.state }
        ensures taken { OnOk result (HasMemoryFor self.new (Heard frame.now)) }
    {
        self.bytes = zeros(alloc, self.ledger.pair().width)?;
        self.ledger.reserve_reply()
    }

    fn make_reading(&mut self, alloc: Global, carried: &CarriedReading<'_>) -> Result<(), NoMemory>
        ensures same { self.new.ledger.state ≡ self.old.ledger.state }
        ensures taken { OnOk result (HasMemoryFor self.new (Carried (plain_reading carried.now))) }
    {
        self.bytes = copy_of(alloc, carried.bytes)?;
        self.ledger.reserve_reading()
    }

    // Takes the memory that the step of a note needs.
    fn make_ahead(&mut self, alloc: Global, note: &LedgerNote<'_>) -> Result<(), NoMemory>
        ensures same { self.new.ledger.state ≡ self.old.ledger.state }
        ensures taken { OnOk result (HasMemoryFor self.new (plain_note note.now)) }
        ensures wanted { OnErr result (TakesMemory (plain_note note.now)) }
    {
        match note {
            LedgerNote::Named(wanted) => self.make_name(alloc, wanted),
            LedgerNote::Marked(_) => self.ledger.reserve_mark(),
            LedgerNote::Heard(frame) => self.make_message(alloc, frame),
            LedgerNote::Owned(_) => self.ledger.reserve_box(),
            LedgerNote::Denied(_) => self.ledger.reserve_denied(),
            LedgerNote::Carried(carried) => self.make_reading(alloc, carried),
            LedgerNote::Closed(_) | LedgerNote::Retiring(_) | LedgerNote::Asked(_) => Ok(()),
            LedgerNote::Time(_) | LedgerNote::GivenUp => Ok(()),
        }
    }

    fn take_bytes(&mut self) -> Vec<u8>
        ensures bytes { result.items ≡ self.old.bytes.items }
        ensures same { self.new.ledger ≡ self.old.ledger }
    {
        mem::replace(&mut self.bytes, Vec::new(self.alloc))
    }

    fn add_name(&mut self, wanted: &WantedBoxes<'_>)
        requires { HasMemoryFor self.old (Named (plain_wanted wanted.now)) }
        ensures { self.new.ledger.state ≡ step_of self.old.ledger.state (Named (plain_wanted wanted.now)) }
    {
        if let Some(named) = self.name.take()
            && self.ledger.fits_names(wanted)
        {
            self.ledger.add_name(named);
        }
    }

    fn hear(&mut self, frame: &[u8])
        requires { HasMemoryFor self.old (Heard frame.now) }
        ensures { self.new.ledger.state ≡ step_of self.old.ledger.state (Heard frame.now) }
    {
        let bytes = self.take_bytes();
        self.ledger.hear(frame, bytes);
    }

    fn carry(&mut self, carried: &CarriedReading<'_>)
        requires { HasMemoryFor self.old (Carried (plain_reading carried.now)) }
        ensures { self.new.ledger.state
            ≡ step_of self.old.ledger.state (Carried (plain_reading carried.now)) }
    {
        let bytes = self.take_bytes();
        self.ledger.carry(Reading {
            address: carried.address,
            seconds: carried.seconds,
            bytes: List::from_vec(bytes),
        });
    }

    // The step of a note.
    fn step_of(&mut self, note: &LedgerNote<'_>)
        requires { HasMemoryFor self.old (plain_note note.now) }
        ensures { self.new.ledger.state ≡ step_of self.old.ledger.state (plain_note note.now) }
    {
        match note {
            LedgerNote::Named(wanted) => self.add_name(wanted),
            LedgerNote::Closed(closed) => self.ledger.close(closed.name, closed.day),
            LedgerNote::Retiring(name) => self.ledger.retire_all(name),
            LedgerNote::Marked(marked) => self.ledger.mark(*marked),
            LedgerNote::Asked(task) => self.ledger.ask(*task),
            LedgerNote::Time(seconds) => self.ledger.note_time(*seconds),
            LedgerNote::Heard(frame) => self.hear(frame),
            LedgerNote::GivenUp => self.ledger.give_up(),
            LedgerNote::Owned(owned) => self.ledger.own(owned),
            LedgerNote::Denied(denied) => self.ledger.deny(denied.address, denied.denial),
            LedgerNote::Carried(carried) => self.carry(carried),
        }
    }
}

impl Machine for KeptLedger {
    ghost use Rattle.kept_ledger.specs.Machines.{ledger_rules};
    ghost use Rattle.kept_ledger.specs.MachineLaws.{ledger_rules_hold};

    ghost rules = { ledger_rules };

    fn is_opening(first: &[u8]) -> bool {
        match LedgerOpening::of(first) {
            Some(_) => true,
            None => false,
        }
    }

    fn is_record(bytes: &[u8]) -> bool {
        let mut room = [0; MOST_AT_ONCE];
        match LedgerNote::of(bytes, &mut room) {
            Some(_) => true,
            None => false,
        }
    }

    fn open(alloc: Global, first: &[u8]) -> Result<KeptLedger, NoMemory> {
        let Some(opening) = LedgerOpening::of(first) else {
            unreachable!()
        };
        match Ledger::open(alloc, &opening) {
            Ok(ledger) => Ok(KeptLedger {
                alloc,
                ledger,
                name: None,
                bytes: Vec::new(alloc),
            }),
            Err(NoMemory) => Err(NoMemory),
        }
    }

    #[tactic(auto, using(crate::proofs::NoteLaws::has_memory))]
    fn take_memory(&mut self, alloc: Global, bytes: &[u8]) -> Result<(), NoMemory> {
        let mut room = [0; MOST_AT_ONCE];
        let Some(note) = LedgerNote::of(bytes, &mut room) else {
            unreachable!()
        };
        self.make_ahead(alloc, &note)
    }

    fn step(&mut self, bytes: &[u8]) {
        let mut room = [0; MOST_AT_ONCE];
        let Some(note) = LedgerNote::of(bytes, &mut room) else {
            unreachable!()
        };
        self.step_of(&note);
    }

    ghost rules_hold = { ledger_rules_hold };
}

impl<'a> Takes<LedgerNote<'a>> for KeptLedger {
    type Told = ();

    ghost use Rattle.std.specs.Prelude.{Some};
    ghost use Rattle.kept_ledger.specs.Machines.{IsInput};
    ghost use Rattle.kept_ledger.specs.Notes.{note_record, plain_note};

    ghost is_input = { λ note. IsInput (plain_note note) };

    ghost record_of = { λ note. Some (note_record (plain_note note)) };

    ghost tells = { λ note before now told out out_new. Unit {0} };

    ghost most = { 0 };

    #[tactic(auto, using(crate::proofs::NoteLaws::note_sized))]
    fn record<'r>(input: &LedgerNote<'a>, room: &'r mut [u8; RECORD_MAX]) -> Option<&'r [u8]> {
        Some(input.record(room))
    }

    fn take(&mut self, input: &LedgerNote<'a>, _out: &mut [u8]) {
        self.step_of(input);
    }

    ghost tells_of_same = { λ note a b now told out out_new same tells. tells };
}
