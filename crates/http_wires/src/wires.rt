//! Wires that speak HTTP at the clients' door.
ghost use Rattle.std.specs.Prelude.{◌≡◌, ℕ, List, [], length, IfOk, Some, option_map, replicate};
ghost use Rattle.std.specs.Bool.{OnTrue, OnFalse};
ghost use Rattle.many_words.specs.Events.{Event, Adds, Waited, Opened, Asked, Closed, Dropped, Unanswered, Sent, SentAgain};
ghost use Rattle.many_words.specs.Takes.{Gives};
ghost use Rattle.http_wires.specs.Clients.{raw_client};
ghost use Rattle.http_wires.specs.Steps.{OpensBy, Passes, SendsBelow, TakesBelow};

use crate::client::Client;
use crate::places::{
    free_clients, note_taken, open_at, origin_bytes, send_again_at, send_at, take_at,
};
use http_door::HeaderValue;
use many_wires::{CallLog, Wires};
use many_words::{Door, Taken};
use std::alloc::{AllocError, Global};
use std::marker::Model;

/// Connections at places over those of other wires: at the clients' door requests of HTTP come as asks, and answers go out
/// as responses, one ask of a connection at a time. At any other door bytes pass as they are.
#[derive(Drop)]
pub struct HttpWires<W: Wires> {
    wires: W,
    origin: Vec<u8>,
    clients: Vec<Client>,
    calls: CallLog,
}

impl<W: Wires> Model for HttpWires<W> {
    ghost use Rattle.http_wires.specs.Views.{View};
    ghost use Rattle.http_wires.specs.Replies.{origin_of};

    ghost Value = { View W };

    ghost view = { λ h. record {
      wires = h.wires;
      origin = origin_of h.origin.items;
      clients = h.clients.items;
      calls = h.calls;
    } };
}

impl<W: Wires> HttpWires<W> {
    /// So many places over these wires, with answers that pages of this origin may read. This alone takes memory: two
    /// buffers a place.
    pub fn open(
        alloc: Global,
        wires: W,
        places: usize,
        origin: Option<&HeaderValue<'_>>,
    ) -> Result<HttpWires<W>, AllocError>
    where
        W: Drop,
        ensures { IfOk result (λ h. h
            ≡ record {
              wires = wires;
              origin = option_map (λ value. value.now) origin.entry;
              clients = replicate places raw_client;
              calls = [];
            }) }
    {
        Ok(HttpWires {
            wires,
            origin: origin_bytes(alloc, origin)?,
            clients: free_clients(alloc, places)?,
            calls: CallLog::new(),
        })
    }

    /// The wires below.
    pub fn below(&self) -> &W
        ensures { result.now ≡ self.now.wires }
    {
        &self.wires
    }
}

impl<W: Wires> Wires for HttpWires<W> {
    ghost told = { λ h. Some h.calls };

    fn wait(&mut self) -> u64
        ensures told { Adds (Some self.old.calls) (Some self.new.calls) (Waited result) }
        ensures below { Passes W.told self.old self.new (Waited result) }
    {
        let now = self.wires.wait();
        self.calls.note_waited(now);
        now
    }

    fn open(&mut self, place: usize, door: Door) -> bool
        ensures opened { OnTrue result (Adds (Some self.old.calls) (Some self.new.calls) (Opened place door)) }
        ensures none { OnFalse result (Adds (Some self.old.calls) (Some self.new.calls) (Asked place door)) }
        ensures below { OpensBy result W.told self.old self.new place door }
    {
        if self.wires.open(place, door) {
            open_at(&mut self.clients, place, door);
            self.calls.note_opened(place, door);
            true
        } else {
            self.calls.note_asked(place, door);
            false
        }
    }

    fn take(&mut self, place: usize, door: Door, buf: &mut [u8]) -> Taken
        ensures length { length buf.new ≡ length buf.old }
        ensures gives { Gives (Some self.old.calls) (Some self.new.calls) place door result buf.new }
        ensures below { TakesBelow W.told self.old self.new place door result buf.new }
    {
        let taken = take_at(&mut self.clients, &mut self.wires, place, door, buf);
        note_taken(&mut self.calls, place, taken, buf);
        taken
    }

    fn close(&mut self, place: usize)
        ensures told { Adds (Some self.old.calls) (Some self.new.calls) (Closed place) }
        ensures below { Passes W.told self.old self.new (Closed place) }
    {
        self.wires.close(place);
        self.calls.note_closed(place);
    }

    fn knocks(&mut self, door: Door) -> bool
        ensures told { self.new.calls ≡ self.old.calls }
        ensures below { W.told self.new.wires ≡ W.told self.old.wires }
        ensures clients { self.new.clients ≡ self.old.clients }
        ensures origin { self.new.origin ≡ self.old.origin }
    {
        self.wires.knocks(door)
    }

    fn drop_for_another(&mut self, place: usize)
        ensures told { Adds (Some self.old.calls) (Some self.new.calls) (Dropped place) }
        ensures below { Passes W.told self.old self.new (Dropped place) }
    {
        self.wires.drop_for_another(place);
        self.calls.note_dropped(place);
    }

    fn leave(&mut self, place: usize)
        ensures told { Adds (Some self.old.calls) (Some self.new.calls) (Unanswered place) }
        ensures below { Passes W.told self.old self.new (Unanswered place) }
    {
        self.wires.leave(place);
        self.calls.note_unanswered(place);
    }

    fn send(&mut self, place: usize, bytes: &[u8])
        ensures told { Adds (Some self.old.calls) (Some self.new.calls) (Sent place bytes.now) }
        ensures below { SendsBelow W.told self.old self.new place (Sent place) bytes.now }
    {
        send_at(
            &mut self.clients,
            &mut self.wires,
            &self.origin,
            place,
            bytes,
        );
        self.calls.note_sent(place, bytes);
    }

    fn send_again(&mut self, place: usize, bytes: &[u8])
        ensures told { Adds (Some self.old.calls) (Some self.new.calls) (SentAgain place bytes.now) }
        ensures below { SendsBelow W.told self.old self.new place (SentAgain place) bytes.now }
    {
        send_again_at(
            &mut self.clients,
            &mut self.wires,
            &self.origin,
            place,
            bytes,
        );
        self.calls.note_sent_again(place, bytes);
    }
}
