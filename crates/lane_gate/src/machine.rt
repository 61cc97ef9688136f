//! A gate as the machine that its records give.
use crate::fault::GateFault;
use crate::gate::LaneGate;
use crate::note::Note;
use crate::opening::GateOpening;
use express_words::NoMemory;
use kept_machine::{Machine, Takes};
use node_journal::RECORD_MAX;
use std::alloc::Global;

impl Machine for LaneGate {
    ghost use Rattle.lane_gate.specs.Machines.{gate_rules, gate_rules_hold};

    ghost rules = { gate_rules };

    fn is_opening(first: &[u8]) -> bool {
        match GateOpening::of(first) {
            Some(_) => true,
            None => false,
        }
    }

    fn is_record(bytes: &[u8]) -> bool {
        match Note::of(bytes) {
            Some(_) => true,
            None => false,
        }
    }

    fn open(alloc: Global, first: &[u8]) -> Result<LaneGate, NoMemory> {
        let Some(opening) = GateOpening::of(first) else {
            unreachable!()
        };
        LaneGate::open(alloc, &opening)
    }

    fn take_memory(&mut self, _alloc: Global, _bytes: &[u8]) -> Result<(), NoMemory> {
        Ok(())
    }

    fn step(&mut self, bytes: &[u8]) {
        let Some(note) = Note::of(bytes) else {
            unreachable!()
        };
        let _ = self.note(&note);
    }

    ghost rules_hold = { gate_rules_hold };
}

impl Takes<Note> for LaneGate {
    type Told = Result<(), GateFault>;

    ghost use Rattle.std.specs.Prelude.{◌≡◌, Some};
    ghost use Rattle.lane_gate.specs.Notes.{IsNote, note_record};
    ghost use Rattle.std.proofs.Common.{◌∙◌, ap};
    ghost use Rattle.lane_gate.specs.Gates.{GateState, note_answer};

    ghost is_input = { IsNote };

    ghost record_of = { λ note. Some (note_record note) };

    ghost tells = { λ note before now told out out_new. told ≡ note_answer before note };

    ghost most = { 0 };

    fn record<'r>(input: &Note, room: &'r mut [u8; RECORD_MAX]) -> Option<&'r [u8]> {
        room[..39].copy_from_slice(&input.record());
        Some(&room[..39])
    }

    fn take(&mut self, input: &Note, _out: &mut [u8]) -> Result<(), GateFault> {
        self.note(input)
    }

    ghost tells_of_same = { λ note a b now told out out_new same tells.
        tells ∙ ap (λ (g : GateState). note_answer g note) same };
}
