//! What a ledger makes of a server's frame.
ghost use Rattle.std.specs.Prelude.{◌≡◌, ◌<◌, ◌++◌, ◌∷◌, [], ℕ, List, length, slice_get};
ghost use Rattle.step_rules.specs.Client as steps;
ghost use Rattle.step_rules.specs.ClientReplies.{on_reply};
ghost use Rattle.client_core.specs.Answers.{message_or, outcome_in, progress_in};
ghost use Rattle.client_core.specs.Outcomes.{with_message};
ghost use Rattle.kept_ledger.specs.Ledgers.{are_zeros, denied_with, heard, of_read, of_register, of_retire};
ghost use Rattle.kept_ledger.specs.Ledgers.{box_at, is_noted, of_task, read_from, refusal_in, refused_behind};
ghost use Rattle.kept_ledger.specs.Ledgers.{refused_by, retired_at, task_at, turned_by};
ghost use Rattle.kept_ledger.specs.Machines.{HasReplyRoom};

use crate::entry::{Denial, Denied, LedgerBox, Reading};
use crate::ledger::Ledger;
use crate::task::Task;
use client_core::{Outcome, Progress};
use express_words::{List, Refusal};

fn are_zeros(bytes: &[u8]) -> bool
    ensures { result ≡ are_zeros bytes.now }
{
    bytes.iter().all(|b| *b == 0)
}

// Whether something else is noted where the servers refuse this so.
fn is_noted(task: Task, refusal: Refusal) -> bool
    ensures { result ≡ is_noted task refusal }
{
    match (task, refusal) {
        (Task::Register(_), Refusal::Taken(_)) => true,
        (Task::Register(_), Refusal::Full(_)) => true,
        (Task::Retire(_), Refusal::NoBox(_)) => true,
        (_, _) => false,
    }
}

// The refusal that ended a request, where nothing else is noted of it.
fn refusal_in(task: Task, outcome: Outcome) -> Option<Refusal>
    ensures { (o : steps.Outcome) → outcome ≡ outcome_in o → result ≡ refusal_in task o }
{
    match outcome {
        Outcome::Refused(refusal) if !is_noted(task, refusal) => Some(refusal),
        _ => None,
    }
}

// Why a request comes to nothing, or isn't taken now, by how it goes on.
fn refused_by(before: Option<Refusal>, task: Option<Task>, progress: Progress) -> Option<Refusal>
    ensures { (p : steps.Progress) → progress ≡ progress_in p → result ≡ refused_by before task p }
{
    match (task, progress) {
        (_, Progress::Later(refusal)) => Some(refusal),
        (Some(task), Progress::Finished(outcome)) => refusal_in(task, outcome),
        (_, _) => before,
    }
}

impl Ledger {
    // What the servers are asked for now.
    fn task(&self) -> Option<Task>
        ensures task { result ≡ task_at self.now.state.client.current }
    {
        match self.client.request() {
            None => None,
            Some(request) => Task::of(&request),
        }
    }

    // The client takes a frame.
    fn go_on(&mut self, frame: &[u8], message: &mut [u8]) -> Progress
        requires { length message.old ≡ self.old.state.pair.width }
        ensures client { self.new.state
            ≡ record self.old.state { client = (on_reply self.old.state.client frame.now).client } }
        ensures room { self.new.room ≡ self.old.room }
        ensures progress { result ≡ progress_in (on_reply self.old.state.client frame.now).progress }
        ensures message { message.new
            ≡ message_or message.old (on_reply self.old.state.client frame.now).progress }
    {
        self.client.on_reply(frame, message)
    }

    // A box stands at this address.
    pub(crate) fn add_box(&mut self, number: u32, serial: u32, address: u128)
        requires { length self.old.state.boxes < self.old.room.boxes }
        ensures { self.new.state ≡ record self.old.state {
          boxes = self.old.state.boxes ++ box_at number serial address ∷ [];
        } }
    {
        self.boxes.push_reserved(LedgerBox {
            address,
            number,
            serial,
            is_retired: false,
        });
    }

    // There is no box to come at this address.
    pub(crate) fn deny(&mut self, address: u128, denial: Denial)
        requires { length self.old.state.denied < self.old.room.denied }
        ensures { self.new.state ≡ denied_with self.old.state address denial }
    {
        self.denied.push_reserved(Denied { address, denial });
    }

    fn end_register(&mut self, serial: u32, address: u128, outcome: Outcome)
        requires { HasReplyRoom self.old }
        ensures { (bytes : List ℕ) → self.new.state
            ≡ of_register self.old.state serial address (with_message outcome bytes) }
    {
        match outcome {
            Outcome::Registered(number) => self.add_box(number, serial, address),
            Outcome::Refused(Refusal::Taken(_)) => self.deny(address, Denial::Taken),
            Outcome::Refused(Refusal::Full(_)) => self.deny(address, Denial::Full),
            Outcome::Refused(_) | Outcome::Accepted | Outcome::Message => {}
        }
    }

    // What the own box of this place held.
    fn read_from(&mut self, own: u32, bytes: Vec<u8>)
        requires { HasReplyRoom self.old }
        ensures { self.new.state ≡ read_from self.old.state own bytes.items }
    {
        let Some(found) = self.boxes.get(own as usize) else {
            return;
        };
        if !are_zeros(&bytes) {
            self.readings.push_reserved(Reading {
                address: found.address,
                seconds: self.seconds,
                bytes: List::from_vec(bytes),
            });
        }
    }

    // The own box of this place is retired.
    fn retire(&mut self, own: u32)
        ensures { self.new.state ≡ retired_at self.old.state own }
    {
        if let Some(found) = self.boxes.get_mut(own as usize) {
            found.is_retired = true;
        }
    }

    fn end_read(&mut self, own: u32, outcome: Outcome, bytes: Vec<u8>)
        requires { HasReplyRoom self.old }
        ensures { self.new.state ≡ of_read self.old.state own (with_message outcome bytes.items) }
    {
        match outcome {
            Outcome::Message => self.read_from(own, bytes),
            Outcome::Refused(_) | Outcome::Accepted | Outcome::Registered(_) => {}
        }
    }

    fn end_retire(&mut self, own: u32, outcome: Outcome, bytes: Vec<u8>)
        requires { HasReplyRoom self.old }
        ensures { self.new.state ≡ of_retire self.old.state own (with_message outcome bytes.items) }
    {
        match outcome {
            Outcome::Message => {
                self.read_from(own, bytes);
                self.retire(own);
            }
            Outcome::Refused(Refusal::NoBox(_)) => self.retire(own),
            Outcome::Refused(_) | Outcome::Accepted | Outcome::Registered(_) => {}
        }
    }

    // A request has ended.
    fn end(&mut self, serial: u32, task: Task, outcome: Outcome, bytes: Vec<u8>)
        requires { HasReplyRoom self.old }
        ensures { self.new.state ≡ of_task self.old.state serial task (with_message outcome bytes.items) }
    {
        match task {
            Task::Register(address) => self.end_register(serial, address, outcome),
            Task::Read(own) => self.end_read(own, outcome, bytes),
            Task::Retire(own) => self.end_retire(own, outcome, bytes),
        }
    }

    // Why the request comes to nothing behind this frame, or isn't taken now.
    fn refused_behind(&self, frame: &[u8]) -> Option<Refusal>
        ensures { result ≡ refused_behind self.now.state (on_reply self.now.state.client frame.now) }
    {
        refused_by(self.refused, self.task(), self.client.progress_at(frame))
    }

    // The client goes on, and what came of a request that ends is noted.
    fn turn(&mut self, frame: &[u8], bytes: Vec<u8>)
        requires message { length bytes.items ≡ self.old.state.pair.width }
        requires room { HasReplyRoom self.old }
        ensures { self.new.state ≡ turned_by self.old.state (on_reply self.old.state.client frame.now) }
    {
        let task = self.task();
        let serial = self.client.serial();
        let mut message = bytes;
        let progress = self.go_on(frame, &mut message);
        if let Some(task) = task
            && let Progress::Finished(outcome) = progress
        {
            self.end(serial as u32, task, outcome, message);
        }
    }

    // A frame came, of which a message is put into these bytes.
    pub(crate) fn hear(&mut self, frame: &[u8], bytes: Vec<u8>)
        requires message { length bytes.items ≡ self.old.state.pair.width }
        requires room { HasReplyRoom self.old }
        ensures { self.new.state ≡ heard self.old.state frame.now }
    {
        let refused = self.refused_behind(frame);
        self.turn(frame, bytes);
        self.refused = refused;
    }
}
