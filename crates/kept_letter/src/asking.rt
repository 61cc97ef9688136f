//! A letter on its way as a machine that asks at doors.
ghost use Rattle.std.specs.Prelude.{◌≡◌, ◌≤◌, ◌+◌, ◌&&◌, IfSome, is_some, length, nat_le, not, option_map};
ghost use Rattle.door_work.specs.Asking.{CanBeDone, plain_next};
ghost use Rattle.http_door.specs.Replies.{plain_reply};
ghost use Rattle.http_door.specs.Requests.{plain_request, request_body};
ghost use Rattle.kept_letter.specs.Asking.{brings_on, frame_request, heard_note, letter_wants, note_if};
ghost use Rattle.kept_letter.specs.Asking.{told_end};
ghost use Rattle.kept_letter.specs.Machines.{IsInput, IsNoteRecord};
ghost use Rattle.kept_letter.specs.Notes as notes;
ghost use Rattle.kept_letter.specs.Notes.{plain_note};

use crate::letter::LetterOnItsWay;
use crate::machine::KeptLetter;
use crate::next::LetterNext;
use crate::note::{LaneSerial, LetterNote, Told};
use door_work::{Asks, Next, Record};
use express_words::Role;
use frame_rules::FRAME_MAX;
use http_door::{Reply, Request};
use kept_machine::{Machine, Takes};
use lane_gate::{StatementHash, Ticket};
use lane_leases::End;
use letter_copies::{Fate, fate_by};
use node_journal::RECORD_MAX;

// A frame as it goes to its server's door: with its ticket, and a proof with the hash of its statement.
fn request_of(ticket: Ticket, statement: Option<StatementHash>, frame: &[u8]) -> Request<'_>
    ensures request { plain_request result ≡ frame_request ticket statement frame.now }
    ensures short { length (request_body (plain_request result)) ≤ 48 + length frame.now }
{
    match statement {
        None => Request::Frame { ticket, frame },
        Some(statement) => Request::Proof {
            ticket,
            statement,
            frame,
        },
    }
}

fn told_end(end: End) -> Told
    ensures { result ≡ told_end end }
{
    match end {
        End::Written => Told::Written,
        End::NotWritten => Told::NotWritten,
    }
}

impl LetterOnItsWay {
    /// What it asks next at a door, or notes, in `room`; rest where it has no whole text, or is at its end.
    #[tactic(auto, unfolding(crate::specs::Asking::letter_wants))]
    pub fn wants<'a>(&self, room: &'a mut [u8; RECORD_MAX]) -> Next<'a>
        ensures next { plain_next result ≡ letter_wants self.now }
        ensures can { CanBeDone IsNoteRecord (plain_next result) }
    {
        match self.next(room) {
            LetterNext::Text | LetterNext::Ended(_) => Next::Rest,
            LetterNext::Begin => Next::Note(LetterNote::Begins.record(room)),
            LetterNext::NoteProof => Next::Note(LetterNote::ProofGoes.record(room)),
            LetterNext::Lease { ticket, helper } => Next::Ask {
                to: Role::Leader,
                request: Request::Lease { ticket, helper },
            },
            LetterNext::Send(sending) => Next::Ask {
                to: sending.to,
                request: request_of(sending.ticket, sending.statement, &room[..sending.len]),
            },
        }
    }

    // Whether something else is asked behind this frame.
    fn brings_on(&self, frame: &[u8]) -> bool
        ensures { result ≡ brings_on self.now frame.now }
    {
        let Some(answer) = self.answer_to(frame) else {
            return false;
        };
        match self.copies.present() {
            None => true,
            Some(tried) => !matches!(fate_by(tried.proof_out, answer), Fate::Again),
        }
    }

    // What is told in place of a frame.
    fn told(&self, told: Told) -> Option<LetterNote<'static>>
        ensures note { option_map plain_note result ≡ note_if (is_some self.now.client) (notes.Told told) }
        ensures is { IfSome result (λ n. IsInput (plain_note n)) }
    {
        if self.client.is_some() {
            Some(LetterNote::Told(told))
        } else {
            None
        }
    }

    // The lease that came while there was no client.
    fn leased(&self, lane: u16, serial: u32) -> Option<LetterNote<'static>>
        ensures note { option_map plain_note result
            ≡ note_if (not (is_some self.now.client) && nat_le 1 serial) (notes.Leased lane serial) }
        ensures is { IfSome result (λ n. IsInput (plain_note n)) }
    {
        if self.client.is_none() && serial >= 1 {
            Some(LetterNote::Leased(LaneSerial { lane, serial }))
        } else {
            None
        }
    }

    // The frame that came, where it leads further.
    fn heard<'a>(&self, frame: &'a [u8]) -> Option<LetterNote<'a>>
        ensures note { option_map plain_note result
            ≡ note_if (nat_le (length frame.now) 8213 && brings_on self.now frame.now)
            (notes.Heard frame.now) }
        ensures is { IfSome result (λ n. IsInput (plain_note n)) }
    {
        if frame.len() <= FRAME_MAX && self.brings_on(frame) {
            Some(LetterNote::Heard(frame))
        } else {
            None
        }
    }

    /// The note by which it hears an answer to what it asks; none where that leads no further.
    pub fn hears<'a>(&self, reply: &Reply<'a>) -> Option<LetterNote<'a>>
        ensures note { option_map plain_note result ≡ heard_note self.now (plain_reply reply.now) }
        ensures is { IfSome result (λ n. IsInput (plain_note n)) }
    {
        match *reply {
            Reply::Lease { lane, serial } => self.leased(lane, serial),
            Reply::Frame(frame) => self.heard(frame),
            Reply::NotYours => self.told(Told::NotYours),
            Reply::Ended(end) => self.told(told_end(end)),
            Reply::Busy | Reply::Preflight | Reply::Refused(_) => None,
        }
    }
}

impl Takes<Record> for KeptLetter {
    type Told = ();

    ghost use Rattle.std.specs.Prelude.{Some};
    ghost use Rattle.kept_letter.specs.Machines.{IsNoteRecord};

    ghost is_input = { λ bytes. IsNoteRecord bytes };

    ghost record_of = { λ bytes. Some bytes };

    ghost tells = { λ bytes before now told out out_new. Unit {0} };

    ghost most = { 0 };

    fn record<'r>(input: &Record, room: &'r mut [u8; RECORD_MAX]) -> Option<&'r [u8]> {
        Some(input.put(room))
    }

    fn take(&mut self, input: &Record, _out: &mut [u8]) {
        self.step(input.bytes());
    }

    ghost tells_of_same = { λ bytes a b now told out out_new same tells. tells };
}

impl Asks for KeptLetter {
    ghost use Rattle.kept_letter.specs.Asking.{letter_asking};
    ghost use Rattle.kept_letter.specs.AskingLaws.{letter_asking_holds, letter_takes_records};

    ghost asking = { letter_asking };

    fn next<'a>(&self, room: &'a mut [u8; RECORD_MAX]) -> Next<'a> {
        self.letter.wants(room)
    }

    fn hear<'a>(&self, reply: &Reply<'_>, room: &'a mut [u8; RECORD_MAX]) -> Option<&'a [u8]> {
        match self.letter.hears(reply) {
            Some(note) => Some(note.record(room)),
            None => None,
        }
    }

    ghost asking_holds = { letter_asking_holds };

    ghost takes_records = { letter_takes_records };
}
