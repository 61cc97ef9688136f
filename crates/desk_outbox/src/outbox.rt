//! A stranger's letter on its way.
ghost use Rattle.std.specs.Prelude.{◌≡◌, ◌≤◌, length};
ghost use Rattle.client_restart.specs.Openings.{IsClientOpening};
ghost use Rattle.desk_outbox.specs.Outboxes.{IsTry, message_in};

use crate::place::Place;
use client_core::Request;
use client_restart::{ClientOpening, KeptClient};
use desk_texts::Sheet;
use node_journal::Disk;
use std::marker::Model;

/// No more bytes of a try's disk are used: its notes are few.
pub const OUTBOX_LIMIT: u64 = 65_536;

/// One try of a letter, on a disk of its own: a write of a client that remembers, whose remarks are the card's text and
/// where the try stands, at its beginning and from each moment on at which that changes.
#[derive(Drop)]
pub struct Outbox<D: Disk> {
    pub(crate) client: KeptClient<D>,
    pub(crate) card: Sheet,
    pub(crate) place: Place,
}

impl<D: Disk> Model for Outbox<D> {
    ghost use Rattle.desk_outbox.specs.Outboxes.{IsTry, OutboxState};

    ghost Value = { OutboxState D };

    ghost view = { λ o. record { kept = o.client; card = o.card; place = o.place } };

    ghost invariant = { λ o. IsTry o.client.opening o.card o.place o.client.core.client.current };
}

impl<D: Disk> Outbox<D> {
    /// Where the try stands.
    pub fn place(&self) -> Place
        ensures value { result ≡ self.now.place }
        ensures whole { IsTry self.now.kept.opening self.now.card result self.now.kept.core.client.current }
    {
        self.place
    }

    /// The box's bytes, as they go out.
    #[tactic(auto, using(crate::proofs::TryLaws::requested, crate::proofs::TryLaws::no_register, crate::proofs::TryLaws::no_read, crate::proofs::TryLaws::no_retire, crate::proofs::TryLaws::no_none, crate::proofs::TryLaws::few_bytes))]
    pub fn message(&self) -> &[u8]
        ensures bytes { result.now ≡ message_in self.now.kept.core.client.current }
        ensures few { length result.now ≤ 4096 }
    {
        match self.client.request() {
            Some(Request::Write { target: _, message }) => message,
            Some(Request::Register { .. }) => unreachable!(),
            Some(Request::Read { .. }) => unreachable!(),
            Some(Request::Retire { .. }) => unreachable!(),
            None => unreachable!(),
        }
    }

    /// The card.
    pub fn card(&self) -> &Sheet
        ensures { result.now ≡ self.now.card }
    {
        &self.card
    }

    /// How the try's client is opened: its lane, first serial and seed.
    pub fn opening(&self) -> &ClientOpening
        ensures value { result.now ≡ self.now.kept.opening }
        ensures is { IsClientOpening result.now }
    {
        self.client.opening()
    }

    /// The disk, as the last call left it.
    pub fn into_disk(self) -> D
        ensures { result ≡ self.kept.disk }
    {
        let Outbox {
            client,
            card: _,
            place: _,
        } = self;
        client.into_disk()
    }
}
