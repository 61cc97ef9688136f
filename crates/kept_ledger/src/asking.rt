//! A ledger as a machine that asks at doors.
ghost use Rattle.std.specs.Prelude.{◌≡◌, ◌≤◌, ◌+◌, ◌&&◌, IfSome, length, nat_le, option_map};
ghost use Rattle.door_work.specs.Asking.{CanBeDone, plain_next};
ghost use Rattle.http_door.specs.Replies.{plain_reply};
ghost use Rattle.http_door.specs.Requests as requests;
ghost use Rattle.http_door.specs.Requests.{plain_request, request_body};
ghost use Rattle.kept_ledger.specs.Asking.{brings_on, heard_note, ledger_wants, note_if};
ghost use Rattle.kept_ledger.specs.Machines.{IsInput, IsNoteRecord};
ghost use Rattle.kept_ledger.specs.Notes as notes;
ghost use Rattle.kept_ledger.specs.Notes.{plain_note};

use crate::ledger::Ledger;
use crate::machine::KeptLedger;
use crate::note::LedgerNote;
use client_core::Progress;
use door_work::{Asks, Next, Record};
use frame_rules::FRAME_MAX;
use http_door::{Reply, Request};
use kept_machine::{Machine, Takes};
use lane_gate::Ticket;
use node_journal::RECORD_MAX;

// A frame as it goes to its server's door.
fn request_of(ticket: Ticket, frame: &[u8]) -> Request<'_>
    ensures request { plain_request result ≡ requests.Frame ticket frame.now }
    ensures short { length (request_body (plain_request result)) ≤ 16 + length frame.now }
{
    Request::Frame { ticket, frame }
}

impl Ledger {
    /// What it asks next at a door, in `room`; rest where no request is current, or the current one isn't
    /// taken now.
    #[tactic(auto, unfolding(crate::specs::Asking::ledger_wants))]
    pub fn wants<'a>(&self, room: &'a mut [u8; RECORD_MAX]) -> Next<'a>
        ensures next { plain_next result ≡ ledger_wants self.now.state }
        ensures can { CanBeDone IsNoteRecord (plain_next result) }
    {
        if self.refused.is_some() {
            return Next::Rest;
        }
        match self.send(room) {
            None => Next::Rest,
            Some(sending) => Next::Ask {
                to: sending.to,
                request: request_of(sending.ticket, &room[..sending.len]),
            },
        }
    }

    // Whether something else is asked behind this frame, or nothing.
    fn brings_on(&self, frame: &[u8]) -> bool
        ensures { result ≡ brings_on self.now.state frame.now }
    {
        !matches!(self.client.progress_at(frame), Progress::Ignored)
    }

    // The frame that came, where it leads further.
    fn heard<'a>(&self, frame: &'a [u8]) -> Option<LedgerNote<'a>>
        ensures note { option_map plain_note result
            ≡ note_if (nat_le (length frame.now) 8213 && brings_on self.now.state frame.now)
            (notes.Heard frame.now) }
        ensures is { IfSome result (λ n. IsInput (plain_note n)) }
    {
        if frame.len() <= FRAME_MAX && self.brings_on(frame) {
            Some(LedgerNote::Heard(frame))
        } else {
            None
        }
    }

    /// The note by which it hears an answer to what it asks; none where that leads no further.
    pub fn hears<'a>(&self, reply: &Reply<'a>) -> Option<LedgerNote<'a>>
        ensures note { option_map plain_note result ≡ heard_note self.now.state (plain_reply reply.now) }
        ensures is { IfSome result (λ n. IsInput (plain_note n)) }
    {
        match *reply {
            Reply::Frame(frame) => self.heard(frame),
            Reply::Lease { lane: _, serial: _ } | Reply::NotYours | Reply::Ended(_) => None,
            Reply::Busy | Reply::Preflight | Reply::Refused(_) => None,
        }
    }
}

impl Takes<Record> for KeptLedger {
    type Told = ();

    ghost use Rattle.std.specs.Prelude.{Some};
    ghost use Rattle.kept_ledger.specs.Machines.{IsNoteRecord};

    ghost is_input = { λ bytes. IsNoteRecord bytes };

    ghost record_of = { λ bytes. Some bytes };

    ghost tells = { λ bytes before now told out out_new. Unit {0} };

    ghost most = { 0 };

    fn record<'r>(input: &Record, room: &'r mut [u8; RECORD_MAX]) -> Option<&'r [u8]> {
        Some(input.put(room))
    }

    fn take(&mut self, input: &Record, _out: &mut [u8]) {
        self.step(input.bytes());
    }

    ghost tells_of_same = { λ bytes a b now told out out_new same tells. tells };
}

impl Asks for KeptLedger {
    ghost use Rattle.kept_ledger.specs.Asking.{ledger_asking};
    ghost use Rattle.kept_ledger.specs.AskingLaws.{ledger_asking_holds, ledger_takes_records};

    ghost asking = { ledger_asking };

    fn next<'a>(&self, room: &'a mut [u8; RECORD_MAX]) -> Next<'a> {
        self.ledger.wants(room)
    }

    #[tactic(auto, using(crate::proofs::NoteLaws::note_sized))]
    fn hear<'a>(&self, reply: &Reply<'_>, room: &'a mut [u8; RECORD_MAX]) -> Option<&'a [u8]> {
        match self.ledger.hears(reply) {
            Some(note) => Some(note.record(room)),
            None => None,
        }
    }

    ghost asking_holds = { ledger_asking_holds };

    ghost takes_records = { ledger_takes_records };
}
