//! A leader behind its doors.
ghost use Rattle.std.specs.Prelude.{◌≡◌, ◌≤◌, IfSome, IsTrue, length};
ghost use Rattle.lane_gate.specs.Tickets.{ticket_hash};
ghost use Rattle.frame_rules.specs.Whole.{whole};
ghost use Rattle.http_door.specs.Requests.{plain_request};
ghost use Rattle.door_asks.specs.Asks.{asked_in};
ghost use Rattle.many_conns.specs.Rules.{IsWithin, outcome_of, written};
ghost use Rattle.gated_servers.specs.Frames.{is_frame};
ghost use Rattle.gated_servers.specs.Leaders.{leader_acked, leader_after, leader_asked, leader_heard};
ghost use Rattle.many_servers.specs.Leaders.{ack_told, ask_behind, ask_noted, ask_told, asked_noted, given_told, key_of, leader_behind, leader_told, lease_given, leased_told, reply_noted, reply_told, request_noted, request_told, turn_told, unnoted_at, whole_ask};
ghost use Rattle.many_servers.specs.Packets.{carried, leased_in};

use crate::announced::announced_record;
use crate::answers::{answer, put_answer, put_frame};
use crate::door::{is_dear, whole_at};
use crate::ended::leader_refused;
use crate::noting::{note_frame, put, put_tagged};
use crate::packet::{leased_in, record_in, write_packet};
use door_asks::read_ask;
use frame_rules::FRAME_MAX;
use gated_servers::GatedLeader;
use http_door::{Asked, Reply, Request};
use lane_gate::{LaneGate, Ticket, TicketHash};
use lane_leases::{Ask, LaneLeases, LeaderNote};
use leader_core::{Ack, Turn};
use many_conns::{Answering, Key, Said};
use many_words::Door;
use wire_frames::Received;

/// A leader with its gate, behind the clients' door and the connection to the helper.
#[derive(Drop)]
pub struct LeaderServer {
    pub gated: GatedLeader,
}

// Writes the record of an ask for a lease, by the hashes of both tickets.
fn note_lease(ticket: &Ticket, helper: TicketHash, out: &mut [u8]) -> Option<usize>
    requires room { 16896 ≤ length out.old }
    ensures within { IfSome result (λ n. n ≤ length out.new) }
    ensures length { length out.new ≡ length out.old }
    ensures noted { written result out.new
        ≡ ask_noted (record { own = ticket_hash ticket.now; helper = helper }) }
{
    let ask = Ask {
        own: ticket.hash(),
        helper,
    };
    Some(put(&ask.record(), out))
}

fn note_request(gate: &LaneGate, request: &Request<'_>, out: &mut [u8]) -> Option<usize>
    requires room { 16896 ≤ length out.old }
    ensures within { IfSome result (λ n. n ≤ length out.new) }
    ensures length { length out.new ≡ length out.old }
    ensures noted { written result out.new ≡ request_noted gate.now (plain_request request.now) }
{
    match request {
        Request::Lease { ticket, helper } => note_lease(ticket, *helper, out),
        Request::Frame { .. } | Request::Proof { .. } => note_frame(gate, request, out),
    }
}

// The record of a client's ask, if it is one of a frame that is taken, or of a lease.
fn note_ask(gate: &LaneGate, bytes: &[u8], out: &mut [u8]) -> Option<usize>
    requires room { 16896 ≤ length out.old }
    ensures within { IfSome result (λ n. n ≤ length out.new) }
    ensures length { length out.new ≡ length out.old }
    ensures noted { written result out.new ≡ asked_noted gate.now (asked_in bytes.now) }
{
    match read_ask(bytes) {
        Some(Asked::Request(request)) => note_request(gate, &request, out),
        _ => None,
    }
}

#[tactic(auto, using(frame_rules::proofs::GrammarLaws::spelling_limit))]
fn is_frame(bytes: &[u8]) -> bool
    ensures is { result ≡ is_frame (whole bytes.now) }
    ensures few { IsTrue result → length bytes.now ≤ 8213 }
{
    Received::of(bytes).frame().is_ok()
}

// Writes the record of what the helper sent, if it is a frame.
fn note_reply(record: &[u8], out: &mut [u8]) -> Option<usize>
    requires room { 16896 ≤ length out.old }
    ensures within { IfSome result (λ n. n ≤ length out.new) }
    ensures length { length out.new ≡ length out.old }
    ensures noted { written result out.new ≡ reply_noted record.now }
{
    let [2, frame @ ..] = record else {
        return None;
    };
    if !is_frame(frame) {
        return None;
    }
    Some(put_tagged(2, frame, out))
}

fn hash_of(bytes: &[u8]) -> TicketHash
    requires { length bytes.now ≡ 32 }
    ensures { result ≡ record { 0 = bytes.now } }
{
    let mut hash = [0; 32];
    hash.copy_from_slice(bytes);
    TicketHash(hash)
}

// The ask of these hashes, if they are two.
fn ask_of(hashes: &[u8]) -> Option<Ask>
    ensures { result ≡ whole_ask hashes.now }
{
    if hashes.len() != 64 {
        return None;
    }
    let (own, helper) = hashes.split_at(32);
    Some(Ask {
        own: hash_of(own),
        helper: hash_of(helper),
    })
}

// The lane and serial of a frame.
fn key_of(received: &Received<'_>) -> Key
    ensures { result ≡ key_of (whole received.now) }
{
    match received.frame() {
        Ok(frame) => Key {
            lane: frame.lane,
            serial: frame.serial,
        },
        Err(_) => Key { lane: 0, serial: 0 },
    }
}

impl LeaderServer {
    // A client's frame, which came in this ask.
    fn hear_client(&mut self, ask: &[u8], frame: &[u8], out: &mut [u8]) -> Said
        requires room { length out.old ≡ 16384 }
        ensures says { outcome_of result out.new ≡ request_told self.old.gated (asked_in ask.now) frame.now }
        ensures within { IsWithin result (length out.new) }
        ensures length { length out.new ≡ length out.old }
        ensures after { self.new.gated ≡ leader_heard self.old.gated frame.now }
    {
        let mut room = [0; FRAME_MAX];
        let received = Received::of(frame);
        match self.gated.hear_client(&received, &mut room) {
            Ok(Turn::Reply(n)) => answer(&Reply::Frame(&room[..n]), out),
            Ok(Turn::Link(_, n)) => {
                Said::Command(Some(key_of(&received)), put_frame(&room[..n], out))
            }
            Ok(Turn::Waiting(_)) => Said::Wait(key_of(&received)),
            Err(_) => answer(&leader_refused(&self.gated.leases, &read_ask(ask)), out),
        }
    }

    // A reply of the helper.
    fn hear_link(&mut self, frame: &[u8], out: &mut [u8]) -> Said
        requires room { length out.old ≡ 16384 }
        ensures says { outcome_of result out.new ≡ reply_told self.old.gated frame.now }
        ensures within { IsWithin result (length out.new) }
        ensures length { length out.new ≡ length out.old }
        ensures after { self.new.gated ≡ leader_acked self.old.gated frame.now }
    {
        let mut room = [0; FRAME_MAX];
        let received = Received::of(frame);
        match self.gated.hear_link(&received, &mut room) {
            Ok(Ack::Reply(_, n)) => {
                let count = put_answer(&Reply::Frame(&room[..n]), out);
                Said::Reply(key_of(&received), count)
            }
            Ok(Ack::Link(_, n)) => Said::Command(None, put_frame(&room[..n], out)),
            Ok(Ack::Ignored) | Err(_) => Said::Nothing,
        }
    }

    // Leases a lane, and announces it to the helper.
    fn lease(&mut self, ask: &Ask, out: &mut [u8]) -> Said
        requires room { length out.old ≡ 16384 }
        ensures says { outcome_of result out.new ≡ given_told (lease_given self.old.gated ask.now) }
        ensures within { IsWithin result (length out.new) }
        ensures length { length out.new ≡ length out.old }
        ensures after { self.new.gated ≡ leader_asked self.old.gated ask.now }
    {
        match self.gated.lease(ask) {
            Ok(lease) => {
                let key = Key {
                    lane: lease.lane,
                    serial: lease.serial,
                };
                Said::Command(Some(key), write_packet(&announced_record(&lease), out))
            }
            Err(_) => answer(&Reply::Busy, out),
        }
    }

    // An ask for a lease, by what stands behind the tag of its record.
    fn hear_ask(&mut self, hashes: &[u8], out: &mut [u8]) -> Said
        requires room { length out.old ≡ 16384 }
        ensures says { outcome_of result out.new ≡ ask_told self.old.gated (whole_ask hashes.now) }
        ensures within { IsWithin result (length out.new) }
        ensures length { length out.new ≡ length out.old }
        ensures after { self.new.gated ≡ ask_behind self.old.gated (whole_ask hashes.now) }
    {
        match ask_of(hashes) {
            Some(ask) => self.lease(&ask, out),
            None => Said::Nothing,
        }
    }

    // What is told of the record of what came in these bytes, which is taken.
    fn take(&mut self, bytes: &[u8], record: &[u8], out: &mut [u8]) -> Said
        requires room { length out.old ≡ 16384 }
        ensures says { outcome_of result out.new ≡ leader_told self.old.gated bytes.now record.now }
        ensures within { IsWithin result (length out.new) }
        ensures length { length out.new ≡ length out.old }
        ensures after { self.new.gated ≡ leader_behind self.old.gated record.now }
    {
        match record {
            [1, frame @ ..] => self.hear_client(bytes, frame, out),
            [2, frame @ ..] => self.hear_link(frame, out),
            [20, hashes @ ..] => self.hear_ask(hashes, out),
            _ => Said::Nothing,
        }
    }
}

// That the helper has a lease, for whoever asked for it.
fn tell_leased(record: &[u8], out: &mut [u8]) -> Said
    requires room { length out.old ≡ 16384 }
    ensures says { outcome_of result out.new ≡ leased_told (leased_in record.now) }
    ensures within { IsWithin result (length out.new) }
    ensures length { length out.new ≡ length out.old }
{
    match leased_in(record) {
        Some(key) => {
            let reply = Reply::Lease {
                lane: key.lane,
                serial: key.serial,
            };
            Said::Reply(key, put_answer(&reply, out))
        }
        None => Said::Nothing,
    }
}

// What is told of what the log takes nothing of.
fn tell_unnoted(leases: &LaneLeases, door: Door, frame: &[u8], out: &mut [u8]) -> Said
    requires room { length out.old ≡ 16384 }
    ensures says { outcome_of result out.new ≡ unnoted_at leases.now door frame.now }
    ensures within { IsWithin result (length out.new) }
    ensures length { length out.new ≡ length out.old }
{
    match door {
        Door::Clients => answer(&leader_refused(leases, &read_ask(frame)), out),
        Door::Dialled => tell_leased(record_in(frame), out),
        Door::Link | Door::Status => Said::Nothing,
    }
}

impl Answering for LeaderServer {
    ghost use Rattle.many_servers.specs.Leaders.{leader_answers};

    ghost rules = { leader_answers };

    fn whole(&self, door: Door, held: &[u8]) -> Option<usize> {
        whole_at(door, held)
    }

    fn is_dear(&self, door: Door, frame: &[u8]) -> bool {
        is_dear(door, frame)
    }

    fn room(&self) -> usize {
        let window = usize::from(self.gated.opening.server.settings.window);
        window.saturating_sub(self.gated.leader.outstanding())
    }

    fn record(&self, door: Door, frame: &[u8], out: &mut [u8]) -> Option<usize> {
        match door {
            Door::Clients => note_ask(self.gated.leases.gate(), frame, out),
            Door::Dialled => note_reply(record_in(frame), out),
            Door::Link | Door::Status => None,
        }
    }

    fn step(&mut self, door: Door, frame: &[u8], noted: Option<&[u8]>, out: &mut [u8]) -> Said {
        match noted {
            Some(record) => self.take(frame, record, out),
            None => tell_unnoted(&self.gated.leases, door, frame, out),
        }
    }

    fn outstanding(&self, place: usize, out: &mut [u8]) -> Option<usize> {
        if place >= self.gated.leader.outstanding() {
            return None;
        }
        let mut room = [0; FRAME_MAX];
        let (_, count) = self.gated.leader.resend_at(place, &mut room)?;
        Some(put_frame(&room[..count], out))
    }
}
