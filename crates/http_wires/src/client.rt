//! A connection of the clients' door.
ghost use Rattle.std.specs.Prelude.{◌≡◌, ◌≤◌, length, IfOk, IfSome, IfNone, take, drop, vec_capacity};
ghost use Rattle.std.specs.Bool.{OnTrue, OnFalse};
ghost use Rattle.many_words.specs.Doors.{is_client};
ghost use Rattle.http_wires.specs.Replies.{origin_of};
ghost use Rattle.http_wires.specs.Responses.{NothingGoes, Responds};
ghost use Rattle.http_wires.specs.Clients.{Fills, Gives, AsksNext, GoesOn, HearsNext, IsDone, IsWhole, Lacks, Stays, Takes, TakesBy, answered, is_asking, is_http, is_kept, opened, raw_client};

use crate::reply::respond;
use door_asks::{ASK_MAX, write_ask};
use http_door::{read, whole};
use many_wires::Wires;
use many_words::{Door, ROOM, Taken, push_all};
use std::alloc::{AllocError, Global};
use std::marker::Model;

/// So many bytes are taken at a time at most.
const PIECE: usize = 4096;

/// What is to come at a connection.
#[derive(Clone, Copy)]
pub enum Turn {
    /// It is none of the clients' door: its bytes pass as they are.
    Raw,
    /// A request of the client.
    Client,
    /// The server's answer to the request that was asked last, and whether the connection is kept behind it.
    Server { keeps: bool },
    /// Nothing more.
    Over,
}

/// A connection of the clients' door: what came of it and wasn't asked yet, and the ask that is under way.
#[derive(Drop)]
pub struct Client {
    held: Vec<u8>,
    coming: Vec<u8>,
    turn: Turn,
}

impl Model for Client {
    ghost use Rattle.std.specs.Prelude.{◌≤◌, length, vec_capacity};
    ghost use Rattle.http_wires.specs.Clients.{Client as State};

    ghost Value = { State };

    ghost view = { λ c. record { held = c.held.items; coming = c.coming.items; turn = c.turn } };

    ghost invariant = { λ c.
        (16384 ≤ vec_capacity c.held) × (length c.held.items ≤ 16384) × (8265 ≤ vec_capacity c.coming) };
}

// Removes bytes at the front.
fn remove_front(held: &mut Vec<u8>, count: usize)
    requires { count ≤ length held.old.items }
    ensures held { held.new.items ≡ drop count held.old.items }
    ensures capacity { vec_capacity held.new ≡ vec_capacity held.old }
{
    held.rotate_left(count);
    let left = held.len() - count;
    held.truncate(left);
}

impl Client {
    /// No connection. This alone takes memory, for the bytes that came and for one ask.
    pub fn empty(alloc: Global) -> Result<Client, AllocError>
        ensures { IfOk result (λ c. c ≡ raw_client) }
    {
        Ok(Client {
            held: Vec::with_capacity(alloc, ROOM)?,
            coming: Vec::with_capacity(alloc, ASK_MAX)?,
            turn: Turn::Raw,
        })
    }

    /// A connection comes through this door.
    pub fn open(&mut self, door: Door)
        ensures { self.new ≡ opened door }
    {
        self.held.clear();
        self.coming.clear();
        self.turn = if door.is_client() {
            Turn::Client
        } else {
            Turn::Raw
        };
    }

    /// Whether HTTP is spoken there.
    pub fn is_http(&self) -> bool
        ensures { result ≡ is_http self.now }
    {
        !matches!(self.turn, Turn::Raw)
    }

    // Takes what came of it, as far as there is room.
    fn fill<W: Wires>(&mut self, wires: &mut W, place: usize, door: Door) -> Taken
        ensures { Fills (W.told wires.old) (W.told wires.new) place door result self.old self.new }
    {
        let mut piece = [0u8; PIECE];
        let space = (ROOM - self.held.len()).min(PIECE);
        let seen = wires.take(place, door, &mut piece[..space]);
        if let Taken::Bytes(count) = seen {
            push_all(&mut self.held, &piece[..count]);
        }
        seen
    }

    // The first request that came, if it is whole, is asked next.
    fn hear(&mut self)
        ensures { HearsNext self.old self.new }
    {
        let Some(end) = whole(&self.held) else {
            return;
        };
        let heard = read(&self.held);
        let keeps = heard.keeps;
        let mut ask = [0u8; ASK_MAX];
        match write_ask(&heard.asked, &mut ask) {
            Some(count) => {
                self.coming.clear();
                push_all(&mut self.coming, &ask[..count]);
                remove_front(&mut self.held, end);
                self.turn = Turn::Server { keeps };
            }
            None => self.turn = Turn::Over,
        }
    }

    // Goes on with what came: to the next request if it is its turn; behind the last one all is dropped.
    fn go_on(&mut self)
        ensures { GoesOn self.old self.new }
    {
        match self.turn {
            Turn::Client => self.hear(),
            Turn::Over => self.held.clear(),
            Turn::Raw | Turn::Server { .. } => {}
        }
    }

    // Whether more must come before it can be asked again.
    fn lacks(&self) -> bool
        ensures lacks { OnTrue result (Lacks self.now.held) }
        ensures whole { OnFalse result (IsWhole self.now.held) }
    {
        match whole(&self.held) {
            Some(_) => false,
            None => true,
        }
    }

    // Whether nothing more is asked there, where the wires had this.
    fn is_done(&self, seen: Taken) -> bool
        ensures done { OnTrue result (IsDone seen self.now) }
        ensures stays { OnFalse result (Stays seen self.now) }
    {
        match (self.turn, seen) {
            (Turn::Over, _) => true,
            (_, Taken::Over) if self.coming.is_empty() => self.lacks(),
            _ => false,
        }
    }

    // Gives the next bytes of the ask that is under way, as far as there is room.
    fn give(&mut self, buf: &mut [u8]) -> usize
        ensures length { length buf.new ≡ length buf.old }
        ensures gives { Gives self.old result buf.new self.new }
    {
        let count = self.coming.len().min(buf.len());
        buf[..count].copy_from_slice(&self.coming[..count]);
        remove_front(&mut self.coming, count);
        count
    }

    // Whether an ask is under way.
    fn is_asking(&self) -> bool
        ensures { result ≡ is_asking self.now }
    {
        !self.coming.is_empty()
    }

    // Goes on where the wires had this, and gives the next bytes of an ask.
    fn next(&mut self, seen: Taken, buf: &mut [u8]) -> Taken
        ensures length { length buf.new ≡ length buf.old }
        ensures next { AsksNext seen self.old result buf.new self.new }
    {
        self.go_on();
        if self.is_done(seen) {
            return Taken::Over;
        }
        Taken::Bytes(self.give(buf))
    }

    // What is given where the wires had this.
    fn settle(&mut self, seen: Taken, buf: &mut [u8]) -> Taken
        ensures length { length buf.new ≡ length buf.old }
        ensures settles { TakesBy seen self.old result buf.new self.new }
    {
        match seen {
            Taken::Bytes(_) | Taken::Over => self.next(seen, buf),
            Taken::Pending => Taken::Pending,
        }
    }

    /// The next bytes of asks, into the front of a buffer.
    pub fn take<W: Wires>(
        &mut self,
        wires: &mut W,
        place: usize,
        door: Door,
        buf: &mut [u8],
    ) -> Taken
        ensures length { length buf.new ≡ length buf.old }
        ensures takes { Takes (W.told wires.old) (W.told wires.new) place door self.old result buf.new self.new }
    {
        if self.is_asking() {
            return Taken::Bytes(self.give(buf));
        }
        let seen = self.fill(wires, place, door);
        self.settle(seen, buf)
    }

    // Whether the connection is kept behind the answer that is sent now.
    fn is_kept(&self) -> bool
        ensures { result ≡ is_kept self.now }
    {
        matches!(self.turn, Turn::Server { keeps: true }) && !self.is_asking()
    }

    // An answer is sent, behind which the connection is kept, or isn't.
    fn answer(&mut self, keeps: bool)
        ensures { self.new ≡ answered keeps self.old }
    {
        self.turn = if keeps { Turn::Client } else { Turn::Over };
    }

    /// Writes the response that goes out for an answer's bytes, for pages of this origin, and tells how many bytes it is.
    /// None: nothing goes out, and nothing more is asked.
    pub fn respond(&mut self, answer: &[u8], origin: &[u8], out: &mut [u8]) -> Option<usize>
        requires { length out.old ≡ 17408 }
        ensures response { IfSome result (λ n. Responds answer.now (origin_of origin.now) n out.new self.old self.new) }
        ensures within { IfSome result (λ n. n ≤ length out.new) }
        ensures none { IfNone result (NothingGoes answer.now (origin_of origin.now) self.old self.new) }
    {
        let keeps = self.is_kept();
        let written = respond(answer, origin, keeps, out);
        self.answer(keeps && written.is_some());
        written
    }
}
