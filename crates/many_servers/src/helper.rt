//! A helper behind its doors.
ghost use Rattle.std.specs.Prelude.{◌≡◌, ◌≤◌, [], IfSome, IsTrue, length, option_map};
ghost use Rattle.door_asks.specs.Asks.{asked_in};
ghost use Rattle.http_door.specs.Hearing.{plain_asked};
ghost use Rattle.many_conns.specs.Rules.{IsWithin, outcome_of, written};
ghost use Rattle.many_servers.specs.Announced.{announced_in};
ghost use Rattle.many_servers.specs.Doors.{record_if};
ghost use Rattle.many_servers.specs.Helpers.{asked_noted, client_told, command_noted, command_told, helper_answers, helper_behind, helper_told, if_lease, lease_noted, lease_told, noted_at, unnoted_at};
ghost use Rattle.gated_servers.specs.Frames.{passes_link};
ghost use Rattle.gated_servers.specs.Helpers.{helper_after, helper_commanded, helper_heard};
ghost use Rattle.frame_rules.specs.Whole.{whole};

use crate::announced::{announced_in, is_next};
use crate::answers::{answer, answer_peer};
use crate::door::{is_dear, whole_at};
use crate::noting::{note_frame, put, put_tagged};
use crate::packet::{leased_record, record_in, write_packet};
use crate::refusing::refused_ask;
use door_asks::read_ask;
use frame_rules::FRAME_MAX;
use gated_servers::GatedHelper;
use helper_core::LinkTurn;
use http_door::{Asked, Reply};
use lane_gate::{LaneGate, Note, pass_command};
use lane_leases::Announced;
use many_conns::{Answering, Key, Said};
use many_words::Door;
use wire_frames::Received;

/// A helper with its gate, behind the clients' door and the link's.
#[derive(Drop)]
pub struct HelperServer {
    pub gated: GatedHelper,
}

// The record of a client's ask, if it is one of a frame that is taken.
fn note_ask(gate: &LaneGate, bytes: &[u8], out: &mut [u8]) -> Option<usize>
    requires room { 16896 ≤ length out.old }
    ensures within { IfSome result (λ n. n ≤ length out.new) }
    ensures length { length out.new ≡ length out.old }
    ensures noted { written result out.new ≡ asked_noted gate.now (asked_in bytes.now) }
{
    match read_ask(bytes) {
        Some(Asked::Request(request)) => note_frame(gate, &request, out),
        _ => None,
    }
}

// Whether a frame of the leader is a command that is taken.
#[tactic(auto, using(frame_rules::proofs::GrammarLaws::spelling_limit))]
fn passes_link(frame: &[u8]) -> bool
    ensures passes { result ≡ passes_link (whole frame.now) }
    ensures few { IsTrue result → length frame.now ≤ 8213 }
{
    match Received::of(frame).frame() {
        Ok(frame) => pass_command(&frame).is_ok(),
        Err(_) => false,
    }
}

// Writes the record of a lease that the leader announced, if it is the lane's next.
fn note_lease(gate: &LaneGate, record: &[u8], out: &mut [u8]) -> Option<usize>
    requires room { 16896 ≤ length out.old }
    ensures within { IfSome result (λ n. n ≤ length out.new) }
    ensures length { length out.new ≡ length out.old }
    ensures noted { written result out.new ≡ lease_noted gate.now (announced_in record.now) record.now }
{
    let lease = announced_in(record)?;
    if !is_next(gate, &lease) {
        return None;
    }
    Some(put(record, out))
}

// Writes the record of what the leader sent, if it is one that is taken.
fn note_command(gate: &LaneGate, record: &[u8], out: &mut [u8]) -> Option<usize>
    requires room { 16896 ≤ length out.old }
    ensures within { IfSome result (λ n. n ≤ length out.new) }
    ensures length { length out.new ≡ length out.old }
    ensures noted { written result out.new ≡ command_noted gate.now record.now }
{
    let [2, frame @ ..] = record else {
        return note_lease(gate, record, out);
    };
    if !passes_link(frame) {
        return None;
    }
    Some(put_tagged(2, frame, out))
}

impl HelperServer {
    // A client's frame.
    fn hear_client(&mut self, frame: &[u8], out: &mut [u8]) -> Said
        requires room { length out.old ≡ 16384 }
        ensures says { outcome_of result out.new ≡ client_told self.old.gated frame.now }
        ensures within { IsWithin result (length out.new) }
        ensures length { length out.new ≡ length out.old }
        ensures after { self.new.gated ≡ helper_heard self.old.gated frame.now }
    {
        let mut room = [0; FRAME_MAX];
        match self.gated.hear_client(&Received::of(frame), &mut room) {
            Ok(n) => answer(&Reply::Frame(&room[..n]), out),
            Err(_) => answer(&Reply::NotYours, out),
        }
    }

    // A command of the leader.
    fn hear_link(&mut self, frame: &[u8], out: &mut [u8]) -> Said
        requires room { length out.old ≡ 16384 }
        ensures says { outcome_of result out.new ≡ command_told self.old.gated frame.now }
        ensures within { IsWithin result (length out.new) }
        ensures length { length out.new ≡ length out.old }
        ensures after { self.new.gated ≡ helper_commanded self.old.gated frame.now }
    {
        let mut room = [0; FRAME_MAX];
        match self.gated.hear_link(&Received::of(frame), &mut room) {
            Ok(LinkTurn::Carried(n) | LinkTurn::Repeated(n)) => answer_peer(&room[..n], out),
            Ok(LinkTurn::Ignored) | Err(_) => Said::Nothing,
        }
    }

    // A lease that the leader announced, if the record is one.
    fn hear_lease(&mut self, record: &[u8], out: &mut [u8]) -> Said
        requires room { length out.old ≡ 16384 }
        ensures says { outcome_of result out.new ≡ lease_told self.old.gated.gate (announced_in record.now) }
        ensures within { IsWithin result (length out.new) }
        ensures length { length out.new ≡ length out.old }
        ensures after { self.new.gated
            ≡ if_lease (announced_in record.now) (helper_after self.old.gated record.now) self.old.gated }
    {
        let Some(lease) = announced_in(record) else {
            return Said::Nothing;
        };
        let note = Note::Lease {
            lane: lease.lane,
            serial: lease.serial,
            hash: lease.hash,
        };
        let key = Key {
            lane: lease.lane,
            serial: lease.serial,
        };
        match self.gated.note(&note) {
            Ok(()) => Said::Answer(write_packet(&leased_record(key), out)),
            Err(_) => Said::Nothing,
        }
    }

    // What is told of a record, which is taken.
    fn take(&mut self, record: &[u8], out: &mut [u8]) -> Said
        requires room { length out.old ≡ 16384 }
        ensures says { outcome_of result out.new ≡ helper_told self.old.gated record.now }
        ensures within { IsWithin result (length out.new) }
        ensures length { length out.new ≡ length out.old }
        ensures after { self.new.gated ≡ helper_behind self.old.gated record.now }
    {
        match record {
            [1, frame @ ..] => self.hear_client(frame, out),
            [2, frame @ ..] => self.hear_link(frame, out),
            _ => self.hear_lease(record, out),
        }
    }
}

// What is told of what the log takes nothing of.
fn refuse(door: Door, frame: &[u8], out: &mut [u8]) -> Said
    requires room { length out.old ≡ 16384 }
    ensures says { outcome_of result out.new ≡ unnoted_at door frame.now }
    ensures within { IsWithin result (length out.new) }
    ensures length { length out.new ≡ length out.old }
{
    match door {
        Door::Clients => answer(&refused_ask(&read_ask(frame)), out),
        Door::Link | Door::Dialled | Door::Status => Said::Nothing,
    }
}

impl Answering for HelperServer {
    ghost use Rattle.many_servers.specs.Helpers.{helper_answers};

    ghost rules = { helper_answers };

    fn whole(&self, door: Door, held: &[u8]) -> Option<usize> {
        whole_at(door, held)
    }

    fn is_dear(&self, door: Door, frame: &[u8]) -> bool {
        is_dear(door, frame)
    }

    fn room(&self) -> usize {
        u32::MAX as usize
    }

    fn record(&self, door: Door, frame: &[u8], out: &mut [u8]) -> Option<usize> {
        match door {
            Door::Clients => note_ask(&self.gated.gate, frame, out),
            Door::Link => note_command(&self.gated.gate, record_in(frame), out),
            Door::Dialled | Door::Status => None,
        }
    }

    fn step(&mut self, door: Door, frame: &[u8], noted: Option<&[u8]>, out: &mut [u8]) -> Said {
        match noted {
            Some(record) => self.take(record, out),
            None => refuse(door, frame, out),
        }
    }

    fn outstanding(&self, _place: usize, _out: &mut [u8]) -> Option<usize> {
        None
    }
}
