//! A leader's gate as the machine that its records give.
use crate::ask::{Announced, Ask};
use crate::ended::Ended;
use crate::fault::UsedUp;
use crate::leases::LaneLeases;
use crate::record::LeaderNote;
use express_words::NoMemory;
use kept_machine::{Machine, Takes};
use lane_gate::{GateFault, GateOpening, Note};
use node_journal::RECORD_MAX;
use std::alloc::Global;

impl Machine for LaneLeases {
    ghost use Rattle.lane_leases.specs.Machines.{leader_rules, leader_rules_hold};

    ghost rules = { leader_rules };

    fn is_opening(first: &[u8]) -> bool {
        match GateOpening::of(first) {
            Some(_) => true,
            None => false,
        }
    }

    fn is_record(bytes: &[u8]) -> bool {
        match LeaderNote::of(bytes) {
            Some(_) => true,
            None => false,
        }
    }

    fn open(alloc: Global, first: &[u8]) -> Result<LaneLeases, NoMemory> {
        let Some(opening) = GateOpening::of(first) else {
            unreachable!()
        };
        LaneLeases::open(alloc, &opening)
    }

    fn take_memory(&mut self, _alloc: Global, _bytes: &[u8]) -> Result<(), NoMemory> {
        Ok(())
    }

    fn step(&mut self, bytes: &[u8]) {
        let Some(note) = LeaderNote::of(bytes) else {
            unreachable!()
        };
        self.step_of(&note);
    }

    ghost rules_hold = { leader_rules_hold };
}

impl LaneLeases {
    ghost use Rattle.lane_leases.specs.Records.{IsLeaderNote};
    ghost use Rattle.lane_leases.specs.Machines.{IsStepOf};

    // Takes the step of a note, and passes over what is told of it.
    fn step_of(&mut self, note: &LeaderNote)
        requires { IsLeaderNote note.now }
        ensures { IsStepOf note.now self.old self.new }
    {
        match note {
            LeaderNote::Row(note) => {
                let _ = self.note(note);
            }
            LeaderNote::Asked(ask) => {
                let _ = self.lease(ask);
            }
            LeaderNote::Ended(ended) => self.end(*ended),
        }
    }
}

impl Takes<Note> for LaneLeases {
    type Told = Result<(), GateFault>;

    ghost use Rattle.std.proofs.Common.{◌∙◌, ap};
    ghost use Rattle.std.specs.Prelude.{◌≡◌, Some};
    ghost use Rattle.lane_gate.specs.Gates.{note_answer};
    ghost use Rattle.lane_gate.specs.Notes.{IsNote, note_record};
    ghost use Rattle.lane_leases.specs.Leases.{IsOfRow, LeasesState};

    ghost is_input = { λ note. IsNote note × IsOfRow note };

    ghost record_of = { λ note. Some (note_record note) };

    ghost tells = { λ note before now told out out_new. told ≡ note_answer before.gate note };

    ghost most = { 0 };

    fn record<'r>(input: &Note, room: &'r mut [u8; RECORD_MAX]) -> Option<&'r [u8]> {
        room[..39].copy_from_slice(&input.record());
        Some(&room[..39])
    }

    fn take(&mut self, input: &Note, _out: &mut [u8]) -> Result<(), GateFault> {
        self.note(input)
    }

    ghost tells_of_same = { λ note a b now told out out_new same tells.
        tells ∙ ap (λ (l : LeasesState). note_answer l.gate note) same };
}

impl Takes<Ask> for LaneLeases {
    type Told = Result<Announced, UsedUp>;

    ghost use Rattle.std.proofs.Common.{subst};
    ghost use Rattle.std.specs.Prelude.{◌≡◌, ◌∷◌, Some};
    ghost use Rattle.lane_leases.specs.Leases.{IsTold, LeasesState};
    ghost use Rattle.lane_leases.specs.Records.{IsAsk, ask_bytes};

    ghost is_input = { IsAsk };

    ghost record_of = { λ ask. Some (20 ∷ ask_bytes ask) };

    ghost tells = { λ ask before now told out out_new. IsTold before ask told now };

    ghost most = { 0 };

    fn record<'r>(input: &Ask, room: &'r mut [u8; RECORD_MAX]) -> Option<&'r [u8]> {
        room[..65].copy_from_slice(&input.record());
        Some(&room[..65])
    }

    fn take(&mut self, input: &Ask, _out: &mut [u8]) -> Result<Announced, UsedUp> {
        self.lease(input)
    }

    ghost tells_of_same = { λ ask a b now told out out_new same tells.
        subst (λ (l : LeasesState). IsTold l ask told now) same tells };
}

impl Takes<Ended> for LaneLeases {
    type Told = ();

    ghost use Rattle.std.specs.Prelude.{◌≡◌, ◌∷◌, Some};
    ghost use Rattle.lane_leases.specs.Records.{IsEnded, end_number};

    ghost is_input = { IsEnded };

    ghost record_of = { λ ended. Some (21 ∷ end_number ended.end ∷ ended.hash.0) };

    ghost tells = { λ ended before now told out out_new. Unit {0} };

    ghost most = { 0 };

    fn record<'r>(input: &Ended, room: &'r mut [u8; RECORD_MAX]) -> Option<&'r [u8]> {
        room[..34].copy_from_slice(&input.record());
        Some(&room[..34])
    }

    fn take(&mut self, input: &Ended, _out: &mut [u8]) {
        self.end(*input);
    }

    ghost tells_of_same = { λ ended a b now told out out_new same tells. tells };
}
