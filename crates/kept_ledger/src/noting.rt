//! What a ledger's other notes do to it.
ghost use Rattle.std.specs.Prelude.{◌≡◌, ◌<◌, ◌++◌, ◌∷◌, [], None, length, is_some, unwrap_or};
ghost use Rattle.std.specs.List.{list_any};
ghost use Rattle.client_core.specs.GivingUp.{given_up};
ghost use Rattle.kept_ledger.specs.Ledgers.{asked_of, is_mark_of, is_marked, is_same_handling};
ghost use Rattle.kept_ledger.specs.Ledgers.{is_same_mark, marks_with, owned, owning, takes_task};

use crate::entry::{Handling, LetterMark, Marked, NamedBoxes, OwnBox, Reading};
use crate::ledger::Ledger;
use crate::task::Task;

fn is_same_handling(one: Handling, other: Handling) -> bool
    ensures { result ≡ is_same_handling one other }
{
    one == other
}

fn is_mark_of(marked: &Marked, mark: LetterMark, handling: Handling) -> bool
    ensures { result ≡ is_mark_of mark handling marked.now }
{
    marked.mark.id == mark.id
        && marked.mark.parts == mark.parts
        && is_same_handling(marked.handling, handling)
}

impl Ledger {
    /// Whether a letter was shown, or written.
    pub fn is_marked(&self, mark: LetterMark, handling: Handling) -> bool
        ensures { result ≡ is_marked self.now.state.marks mark handling }
    {
        self.marks.iter().any(|one| is_mark_of(one, mark, handling))
    }

    // A letter was shown or written; the first time stands.
    pub(crate) fn mark(&mut self, marked: Marked)
        requires { length self.old.state.marks < self.old.room.marks }
        ensures { self.new.state
            ≡ record self.old.state { marks = marks_with self.old.state.marks marked } }
    {
        if !self.is_marked(marked.mark, marked.handling) {
            self.marks.push_reserved(marked);
        }
    }

    // Boxes with a name are wanted.
    pub(crate) fn add_name(&mut self, named: NamedBoxes)
        requires { length self.old.state.named < self.old.room.named }
        ensures { self.new.state
            ≡ record self.old.state { named = self.old.state.named ++ named ∷ [] } }
    {
        self.named.push_reserved(named);
    }

    /// Whether it takes a request for this: none is current, not all serials are spent, and there is room for
    /// the box, or it is there.
    pub fn takes(&self, task: Task) -> bool
        ensures { result ≡ takes_task self.now.state task }
    {
        self.client.fault_at(&task.request()).is_none()
    }

    // The servers are asked for this, where the client takes it.
    pub(crate) fn ask(&mut self, task: Task)
        ensures { self.new.state ≡ asked_of self.old.state task }
    {
        let _ = self.client.ask(&task.request());
        self.refused = None;
    }

    pub(crate) fn give_up(&mut self)
        ensures { self.new.state
            ≡ record self.old.state { client = given_up self.old.state.client; refused = None } }
    {
        self.client.give_up();
        self.refused = None;
    }

    // It is this time.
    pub(crate) fn note_time(&mut self, seconds: u64)
        ensures { self.new.state ≡ record self.old.state { seconds = seconds; refused = None } }
    {
        self.seconds = seconds;
        self.refused = None;
    }

    // The client owns an earlier ledger's box, where no request is current and it has room.
    fn owns(&mut self, earlier: &OwnBox) -> bool
        ensures owned { self.new.state ≡ record self.old.state {
          client = unwrap_or (owning self.old.state.client earlier.now) self.old.state.client;
        } }
        ensures answer { result ≡ is_some (owning self.old.state.client earlier.now) }
        ensures room { self.new.room ≡ self.old.room }
    {
        self.client.is_idle() && self.client.own(earlier.number, earlier.serial)
    }

    // An earlier ledger's box, where no request is current and the client has room.
    pub(crate) fn own(&mut self, earlier: &OwnBox)
        requires { length self.old.state.boxes < self.old.room.boxes }
        ensures { self.new.state ≡ owned self.old.state earlier.now }
    {
        if self.owns(earlier) {
            self.add_box(earlier.number, earlier.serial, earlier.address);
        }
    }

    // What a box held, as an earlier ledger tells.
    pub(crate) fn carry(&mut self, reading: Reading)
        requires { length self.old.state.readings < self.old.room.readings }
        ensures { self.new.state
            ≡ record self.old.state { readings = self.old.state.readings ++ reading ∷ [] } }
    {
        self.readings.push_reserved(reading);
    }
}
