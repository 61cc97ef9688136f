//! The server of many connections: one round after another.
ghost use Rattle.std.specs.Prelude.{◌≡◌, ◌+◌, ◌<◌, ◌≤◌, [], ◌∷◌, ◌++◌, true, false, ℕ, length, take, map, All, IfOk, IfSome, OnOk, OnErr, slice_get, Some};
ghost use Rattle.std.specs.Bool.{OnTrue, OnFalse};
ghost use Rattle.many_words.specs.Events.{Adds, Waited};
ghost use Rattle.many_conns.specs.Doors.{free_places};
ghost use Rattle.many_words.specs.Doors.{is_peer};
ghost use Rattle.many_conns.specs.Ends.{BreaksOff};
ghost use Rattle.many_conns.specs.Hall.{Keeps, Leads, Rounds, RoundsOf, IsSettled, IsInTime, IsAsked, IsLooked, IsServed, IsSomeAt, Waits};

use crate::answering::{ANSWER_MAX, Answering};
use crate::batch::Batch;
use crate::doors::Doors;
use crate::filling::{fill, take_all};
use crate::patience::Patience;
use crate::place::Place;
use crate::rooms::{free_places, oldest, wait_all};
use crate::routing::{deliver, resend, route};
use many_words::{Door, Hub};
use std::alloc::{AllocError, Global};
use std::marker::Model;

/// Where all places are taken a round lets in one for so many places at most: a crowd that comes during one long round
/// doesn't take all places between two looks.
const LET_IN: usize = 4;

/// Why a round ended early.
#[derive(Clone, Copy, Debug, PartialEq, Eq)]
pub enum Stop {
    /// The log failed.
    Log,
}

/// How long a client or an operator is waited for, how many frames a round takes at most, and how many dear ones among
/// them.
#[derive(Clone, Copy, Debug, PartialEq, Eq)]
pub struct Bounds {
    pub patience: Patience,
    pub frames: usize,
    pub dear: usize,
}

/// Connections at places, and the server that answers their frames.
#[derive(Drop)]
pub struct Hall<S: Answering> {
    patience: Patience,
    dear: usize,
    now: u64,
    places: Vec<Place>,
    turn: usize,
    served: bool,
    server: S,
    batch: Batch,
    // so many of the batch are answered
    answered: usize,
}

impl<S: Answering> Model for Hall<S> {
    ghost use Rattle.std.specs.Prelude.{drop};
    ghost use Rattle.many_conns.specs.Hall.{Hall as State};

    ghost Value = { State S };

    ghost view = { λ h. record {
      patience = h.patience;
      most = h.batch.room;
      most_dear = h.dear;
      now = h.now;
      places = h.places.items;
      turn = h.turn;
      served = h.served;
      server = h.server;
      owed = drop h.answered h.batch.entries;
    } };
}

impl<S: Answering> Hall<S> {
    /// Free places, and a server. This alone takes memory: a room for the bytes of each place, and one for each
    /// frame of a round.
    pub fn open(
        alloc: Global,
        server: S,
        doors: Doors,
        bounds: Bounds,
    ) -> Result<Hall<S>, AllocError>
    where
        S: Drop,
        ensures settled { IfOk result (IsSettled S.rules) }
        ensures opened { IfOk result (λ h. h
            ≡ record {
              patience = bounds.patience;
              most = bounds.frames;
              most_dear = bounds.dear;
              now = 0;
              places = free_places doors;
              turn = 0;
              served = true;
              server = server;
              owed = [];
            }) }
    {
        Ok(Hall {
            patience: bounds.patience,
            dear: bounds.dear,
            now: 0,
            places: free_places(alloc, doors)?,
            turn: 0,
            served: true,
            server,
            batch: Batch::open(alloc, bounds.frames)?,
            answered: 0,
        })
    }

    /// The server behind its doors, as the last round left it.
    pub fn server(&self) -> &S
        ensures { result.now ≡ self.entry.now.server }
    {
        &self.server
    }

    // Closes the connection at a place, if its time is over.
    fn close_one<H: Hub>(&mut self, hub: &mut H, place: usize)
        requires nothing_owed { self.old.owed ≡ [] }
        requires there { place < length self.old.places }
        ensures leads { Leads S.rules (H.told hub.old) (H.told hub.new) self.old self.new }
        ensures goes_on { H.goes_on hub.old hub.new }
        ensures in_time { IsSomeAt self.new.places place (IsInTime S.rules.whole self.old.patience self.old.now) }
        ensures others { take place self.new.places ≡ take place self.old.places }
        ensures looked { All IsLooked self.old.places → All IsLooked self.new.places }
        ensures served { IsServed S.rules self.old → IsServed S.rules self.new }
        ensures keeps { Keeps self.old self.new }
    {
        let slot = &mut self.places[place];
        if !slot.is_live() {
            return;
        }
        if !slot.is_over(&self.server, self.patience, self.now) {
            return;
        }
        slot.close();
        hub.close(place);
    }

    // Asks the door of a place where a connection may come for one, and puts it there. On one that the server dials it first
    // sends what is unanswered again.
    fn open_one<H: Hub>(&mut self, hub: &mut H, place: usize)
        requires nothing_owed { self.old.owed ≡ [] }
        requires there { place < length self.old.places }
        ensures leads { Leads S.rules (H.told hub.old) (H.told hub.new) self.old self.new }
        ensures goes_on { H.goes_on hub.old hub.new }
        ensures asked { IsSomeAt self.new.places place IsAsked }
        ensures others { take place self.new.places ≡ take place self.old.places }
        ensures keeps { Keeps self.old self.new }
    {
        let slot = &mut self.places[place];
        if !slot.is_free() {
            return;
        }
        let door = slot.door();
        if !hub.open(place, door) {
            slot.ask();
            return;
        }
        slot.open(self.now);
        resend(&self.server, hub, door, place);
    }

    // Looks at the connection at a place whose door was asked.
    fn look_at<H: Hub>(&mut self, hub: &mut H, place: usize)
        requires nothing_owed { self.old.owed ≡ [] }
        requires there { place < length self.old.places }
        requires asked { IsSomeAt self.old.places place IsAsked }
        ensures leads { Leads S.rules (H.told hub.old) (H.told hub.new) self.old self.new }
        ensures goes_on { H.goes_on hub.old hub.new }
        ensures looked { IsSomeAt self.new.places place IsLooked }
        ensures others { take place self.new.places ≡ take place self.old.places }
        ensures keeps { Keeps self.old self.new }
    {
        let slot = &mut self.places[place];
        if !slot.is_live() {
            return;
        }
        slot.look(hub, place);
    }

    // Closes each connection whose time is over.
    fn close_over<H: Hub>(&mut self, hub: &mut H)
        requires nothing_owed { self.old.owed ≡ [] }
        requires looked { All IsLooked self.old.places }
        requires served { IsServed S.rules self.old }
        ensures leads { Leads S.rules (H.told hub.old) (H.told hub.new) self.old self.new }
        ensures goes_on { H.goes_on hub.old hub.new }
        ensures settled { IsSettled S.rules self.new }
    {
        for place in 0..self.places.len() {
            self.close_one(hub, place);
        }
    }

    // Where each place of a door has a connection and one more waits there, drops the one that has been waited for the
    // longest of them, unless its frame is whole or it came since the last wait. Gives its place.
    fn make_room<H: Hub>(&mut self, hub: &mut H, door: Door) -> Option<usize>
        requires nothing_owed { self.old.owed ≡ [] }
        requires no_peer { is_peer door ≡ false }
        ensures there { IfSome result (λ place. place < length self.new.places) }
        ensures served { self.new.served ≡ self.old.served }
        ensures leads { Leads S.rules (H.told hub.old) (H.told hub.new) self.old self.new }
        ensures goes_on { H.goes_on hub.old hub.new }
        ensures nothing_owed { self.new.owed ≡ [] }
    {
        let place = oldest(&self.places, door)?;
        if !hub.knocks(door) {
            return None;
        }
        let slot = &mut self.places[place];
        if slot.is_asked() || slot.frame(&self.server).is_some() {
            return None;
        }
        slot.vacate();
        hub.drop_for_another(place);
        Some(place)
    }

    // Lets in those who wait at a door whose places all have a connection, one after another, as many as a round may.
    fn let_in<H: Hub>(&mut self, hub: &mut H, door: Door)
        requires nothing_owed { self.old.owed ≡ [] }
        requires no_peer { is_peer door ≡ false }
        ensures served { self.new.served ≡ self.old.served }
        ensures leads { Leads S.rules (H.told hub.old) (H.told hub.new) self.old self.new }
        ensures goes_on { H.goes_on hub.old hub.new }
        ensures nothing_owed { self.new.owed ≡ [] }
    {
        let most = (self.places.len() / LET_IN).max(1);
        for _ in 0..most {
            let Some(vacant) = self.make_room(hub, door) else {
                return;
            };
            self.open_one(hub, vacant);
        }
    }

    // Asks each door for connections, and looks at each connection.
    fn gather<H: Hub>(&mut self, hub: &mut H)
        requires nothing_owed { self.old.owed ≡ [] }
        ensures served { self.new.served ≡ self.old.served }
        ensures leads { Leads S.rules (H.told hub.old) (H.told hub.new) self.old self.new }
        ensures goes_on { H.goes_on hub.old hub.new }
        ensures looked { All IsLooked self.new.places }
        ensures nothing_owed { self.new.owed ≡ [] }
    {
        for place in 0..self.places.len() {
            self.open_one(hub, place);
            self.look_at(hub, place);
        }
    }

    // Waits.
    fn wait<H: Hub>(&mut self, hub: &mut H)
        requires settled { IsSettled S.rules self.old }
        ensures waits { Waits S.rules self.old self.new.now self.new }
        ensures told { Adds (H.told hub.old) (H.told hub.new) (Waited self.new.now) }
        ensures goes_on { H.goes_on hub.old hub.new }
        ensures nothing_owed { self.new.owed ≡ [] }
        ensures unserved { self.new.served ≡ false }
    {
        let now = hub.wait();
        wait_all(&mut self.places);
        self.now = now;
        self.served = false;
    }

    // The frames that the round takes go to the log together: after Ok their answers are owed. An error owes nothing.
    fn commit<H: Hub>(&mut self, hub: &mut H) -> Result<(), Stop>
        requires nothing_owed { self.old.owed ≡ [] }
        requires unserved { self.old.served ≡ false }
        requires looked { All IsLooked self.old.places }
        ensures leads { Leads S.rules (H.told hub.old) (H.told hub.new) self.old self.new }
        ensures goes_on { OnOk result (H.goes_on hub.old hub.new) }
        ensures breaks_off { OnErr result (BreaksOff H.goes_on H.fails hub.old hub.new) }
        ensures looked { OnOk result (All IsLooked self.new.places) }
        ensures served { OnOk result (IsServed S.rules self.new) }
        ensures stays { OnErr result (self.new ≡ self.old) }
    {
        let refused = fill(
            &mut self.batch,
            &self.server,
            self.dear,
            self.turn,
            &self.places,
        );
        self.answered = 0;
        if refused.is_none() && self.batch.entries().is_empty() {
            return Ok(());
        }
        if hub.log(self.batch.entries()).is_err() {
            self.batch.begin(0, 0);
            return Err(Stop::Log);
        }
        take_all(&mut self.places, self.now, self.batch.entries());
        self.turn = refused.unwrap_or(self.turn);
        self.served = true;
        Ok(())
    }

    // Answers the frame that is owed its answer first, if one is.
    fn answer_one<H: Hub>(&mut self, hub: &mut H) -> bool
        ensures leads { Leads S.rules (H.told hub.old) (H.told hub.new) self.old self.new }
        ensures goes_on { H.goes_on hub.old hub.new }
        ensures fewer { OnTrue result (length self.new.owed < length self.old.owed) }
        ensures none { OnFalse result (self.new.owed ≡ []) }
        ensures same { OnFalse result (self.new ≡ self.old) }
        ensures looked { All IsLooked self.old.places → All IsLooked self.new.places }
        ensures served { self.new.served ≡ self.old.served }
    {
        let Some(entry) = self.batch.entries().get(self.answered) else {
            return false;
        };
        let mut out = [0u8; ANSWER_MAX];
        let place = entry.place();
        let door = entry.door();
        let said = self
            .server
            .step(door, entry.frame(), entry.record(), &mut out);
        self.answered += 1;
        let send = route(&mut self.places, self.now, door, place, said, &out);
        deliver(hub, place, send, &out);
        true
    }

    // Answers all that is owed, in the order of the log.
    fn answer_all<H: Hub>(&mut self, hub: &mut H)
        ensures leads { Leads S.rules (H.told hub.old) (H.told hub.new) self.old self.new }
        ensures goes_on { H.goes_on hub.old hub.new }
        ensures nothing_owed { self.new.owed ≡ [] }
        ensures looked { All IsLooked self.old.places → All IsLooked self.new.places }
        ensures served { IsServed S.rules self.old → IsServed S.rules self.new }
    {
        'answering: while self.answer_one(hub) {}
    }

    /// One round: waits, lets in who knocks where all places are taken, looks at each connection once, logs together the
    /// first whole frames, as many as there is room for, answers them in that order, and closes the connections whose
    /// time is over. An error ends the server: what it told its outside until then is right as well.
    pub fn round<H: Hub>(&mut self, hub: &mut H) -> Result<(), Stop>
        requires settled { IsSettled S.rules self.old }
        ensures leads { Leads S.rules (H.told hub.old) (H.told hub.new) self.old self.new }
        ensures goes_on { OnOk result (H.goes_on hub.old hub.new) }
        ensures breaks_off { OnErr result (BreaksOff H.goes_on H.fails hub.old hub.new) }
        ensures rounds { OnOk result (Rounds S.rules (H.told hub.old) (H.told hub.new) self.old self.new) }
        ensures settled { OnOk result (IsSettled S.rules self.new) }
    {
        self.wait(hub);
        self.let_in(hub, Door::Clients);
        self.let_in(hub, Door::Status);
        self.gather(hub);
        self.commit(hub)?;
        self.answer_all(hub);
        self.close_over(hub);
        Ok(())
    }

    /// So many rounds, one after another.
    pub fn serve<H: Hub>(&mut self, hub: &mut H, rounds: u64) -> Result<(), Stop>
        requires settled { IsSettled S.rules self.old }
        ensures leads { Leads S.rules (H.told hub.old) (H.told hub.new) self.old self.new }
        ensures goes_on { OnOk result (H.goes_on hub.old hub.new) }
        ensures breaks_off { OnErr result (BreaksOff H.goes_on H.fails hub.old hub.new) }
        ensures rounds { OnOk result (RoundsOf S.rules rounds (H.told hub.old) (H.told hub.new) self.old self.new) }
        ensures settled { OnOk result (IsSettled S.rules self.new) }
    {
        for _ in 0..rounds {
            self.round(hub)?;
        }
        Ok(())
    }
}
