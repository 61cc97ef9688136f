//! What follows of every run of the machine.
ghost use Rattle.std.specs.Prelude.{◌≡◌, [], ◌∷◌, ◌++◌, ℕ, List};
ghost use Rattle.many_words.specs.Events.{Event, Opened, Waited};
ghost use Rattle.many_conns.specs.Hall.{Hall, Runs, Sends, State, Waits};
ghost use Rattle.many_words.specs.declared.door.Door.TheVariants.{Dialled};
ghost use Rattle.many_conns.specs.Commands.{CommandsInOrder, Stays};
ghost use Rattle.many_conns.specs.Waiting.{AllLooked, NoWait};
ghost use Rattle.many_conns.specs.Orders.{AnswersInOrder, FollowsItsLog, IsOfItsLog, IsOnItsPlace};

use crate::answering::Answering;

/// What was sent is what becomes of the frames of the log where a server takes them one at a time, in their order, each
/// at the place of its frame or at one that waits for it.
pub fn replies_are_in_order<S: Answering>()
    ensures { (h t : State S) (events : List Event) → Runs S.rules h events t → AnswersInOrder S.rules h.hall events t.hall }
{}

/// At any moment of a run what was sent by then is what becomes of frames that were logged by then.
pub fn answers_follow_their_log<S: Answering>()
    ensures { (h t : State S) (before after : List Event) → h.hall.owed ≡ [] → Runs S.rules h (before ++ after) t
        → FollowsItsLog S.rules h.hall.server before }
{}

/// The server is what the records of its log make of the one that it was opened with, in their order: all of them, but
/// for those of frames that it is still to take.
pub fn the_server_is_of_its_log<S: Answering>()
    ensures { (h t : State S) (events : List Event) → h.hall.owed ≡ [] → Runs S.rules h events t
        → IsOfItsLog S.rules h.hall.server events t.hall }
{}

/// What goes to a place is the answer to a frame of its own, or the one that it waits for.
pub fn each_answer_on_its_place<S: Answering>()
    ensures { (h t : Hall S) (place : ℕ) (bytes : List ℕ) → Sends S.rules h place bytes t
        → IsOnItsPlace S.rules h place bytes }
{}

/// On each connection that the server dials it sends the commands that were unanswered when it was opened, and then each
/// one that is issued since, in order, none left out and none twice.
pub fn commands_are_in_order<S: Answering>()
    ensures { (h t : State S) (events : List Event) → Runs S.rules h (Opened 0 Dialled ∷ events) t → Stays 0 events
        → CommandsInOrder S.rules h.hall.server events t }
{}

/// Between two waits each connection that stands was looked at.
pub fn nobody_waits_for_a_peer<S: Answering>()
    ensures { (h m : State S) (now later : ℕ) (between : List Event) (t : Hall S)
        → Runs S.rules h (Waited now ∷ between) m → NoWait between → Waits S.rules m.hall later t → AllLooked between m.hall.places }
{}
