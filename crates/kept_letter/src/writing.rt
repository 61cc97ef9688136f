//! The write of a copy, and the client that asks for it.
ghost use Rattle.std.specs.Prelude.{◌≡◌, ◌≤◌, ◌<◌, ◌^◌, Some, IfOk, IfSome, length};
ghost use Rattle.client_core.specs.Requests.{plain_request};
ghost use Rattle.kept_letter.specs.Inside.{IsClientFor};
ghost use Rattle.kept_letter.specs.Letters.{asking, client_for, client_on, target_of, write_of, write_to};

use crate::letter::LetterOnItsWay;
use crate::note::LaneSerial;
use client_core::{Client, Request};
use express_words::NoMemory;
use express_words::limits::MOST_WIDTH;
use letter_pieces::{Places, cut_into};
use std::alloc::Global;

impl LetterOnItsWay {
    // The address of a copy.
    #[tactic(auto, unfolding(crate::specs::Letters::target_of))]
    fn target_of(&self, copy: u8) -> Option<u128>
        ensures { result ≡ target_of self.now copy }
    {
        let addresses = self.plan.card.addresses.as_slice();
        let each = self.plan.each();
        let places = Places::draw(self.id, addresses.len());
        let place = places.of_part(copy / each).get(usize::from(copy % each))?;
        addresses.get(usize::from(*place)).copied()
    }

    // The address of a copy that is one of the letter's, with its message in `room`.
    #[tactic(auto, unfolding(crate::specs::Letters::write_of))]
    pub(crate) fn write_into(&self, copy: u8, room: &mut [u8]) -> Option<u128>
        requires { length room.old ≡ self.now.plan.card.width }
        ensures { write_to result room.new ≡ write_of self.now copy }
    {
        let part = copy / self.plan.each();
        if part >= self.plan.parts_for(self.filled) {
            return None;
        }
        cut_into(self.text(), self.id, part, room);
        self.target_of(copy)
    }

    /// The client that a lease gives the present try, which asks for the write of its copy; none where it
    /// has one already.
    #[tactic(auto, unfolding(crate::specs::Letters::client_for))]
    pub(crate) fn client_for(
        &self,
        alloc: Global,
        at: &LaneSerial,
    ) -> Result<Option<Client>, NoMemory>
        requires some { 1 ≤ at.now.serial }
        requires fits { at.now.serial < 2 ^ 32 }
        ensures client { IfOk result (λ client. client ≡ client_for self.now at.now.lane at.now.serial) }
        ensures is { IfOk result (λ client. IfSome client (IsClientFor self.now.plan)) }
    {
        if self.client.is_some() {
            return Ok(None);
        }
        let Some(tried) = self.copies.present() else {
            return Ok(None);
        };
        let mut room = [0; MOST_WIDTH as usize];
        let message = &mut room[..self.plan.card.width as usize];
        match self.write_into(tried.copy, message) {
            None => Ok(None),
            Some(target) => self.ask(alloc, at, &Request::Write { target, message }),
        }
    }

    // A client of the present try that asks for this.
    fn ask(
        &self,
        alloc: Global,
        at: &LaneSerial,
        request: &Request<'_>,
    ) -> Result<Option<Client>, NoMemory>
        requires some { 1 ≤ at.now.serial }
        requires fits { at.now.serial < 2 ^ 32 }
        ensures client { IfOk result (λ client. client
            ≡ asking (client_on self.now at.now.lane at.now.serial) (Some (plain_request request.now))) }
        ensures is { IfOk result (λ client. IfSome client (IsClientFor self.now.plan)) }
    {
        let mut client = Client::open(
            alloc,
            at.lane,
            &self.present_draws().seed,
            self.plan.card.width,
            0,
            at.serial,
        )?;
        match client.ask(request) {
            Ok(()) => Ok(Some(client)),
            Err(_) => Ok(None),
        }
    }
}
