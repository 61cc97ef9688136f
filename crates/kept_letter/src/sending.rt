//! A letter, worked off at its card's doors.
ghost use Rattle.std.specs.Prelude.{◌≡◌, Some, IfOk, string_bytes, false};
ghost use Rattle.kept_machine.specs.Keeps.{IsDurable, sight};
ghost use Rattle.door_work.specs.Asking.{Rest};
ghost use Rattle.door_work.specs.Steps.{DiskFaultBy, NetFaultBy};
ghost use Rattle.kept_letter.specs.Asking.{letter_wants};
ghost use Rattle.kept_letter.specs.Laws.{LettersAreRunsOfTries, PiecesGoToTheirPlaces};
ghost use Rattle.kept_letter.specs.Machines.{letter_rules};
ghost use Rattle.kept_letter.specs.Sent.{AreItsPlaces, EndsSo, SentBy, unsent_text, work_of};

use crate::laws::{letters_are_runs_of_tries, pieces_go_to_their_places};
use crate::letter::LetterOnItsWay;
use crate::machine::KeptLetter;
use door_exchange::Place;
use door_work::{Halt, Places, role_text, work};
use express_words::outside::Net;
use express_words::{NoMemory, Role, Text};
use kept_machine::Kept;
use letter_copies::LetterEnd;
use node_journal::Disk;
use std::alloc::Global;
use std::fmt;

/// Why a letter isn't at its end.
#[derive(Clone, Copy, Debug, PartialEq, Eq)]
pub enum Unsent {
    /// Its text isn't whole, or its card takes none of that length.
    NoText,
    /// What its card says of this server is no door's place.
    NoPlace(Role),
    /// No memory was found for the places.
    NoMemory,
    /// The work halted, and may be gone on with.
    Halted(Halt),
}

impl fmt::Display for Unsent {
    ghost output = { λ unsent. Some (unsent_text unsent) };

    fn fmt<W: fmt::Write>(&self, f: &mut fmt::Formatter<W>) -> fmt::Result {
        match *self {
            Unsent::NoText => write!(f, "the letter's text isn't whole"),
            Unsent::NoPlace(server) => {
                write!(f, "the card's place of {} is no door's", role_text(server))
            }
            Unsent::NoMemory => write!(f, "{}", NoMemory),
            Unsent::Halted(why) => write!(f, "{why}"),
        }
    }
}

// The same text.
fn copy_of(alloc: Global, text: &Text) -> Result<String, NoMemory>
    ensures { IfOk result (λ copy. string_bytes copy ≡ text.now) }
{
    let mut copy = String::new(alloc);
    match copy.push_str(text.as_str()) {
        Ok(()) => Ok(copy),
        Err(_) => Err(NoMemory),
    }
}

// How a letter that rests stands.
#[tactic(auto, using(crate::proofs::SentLaws::has_end))]
fn end_in(letter: &LetterOnItsWay) -> Result<LetterEnd, Unsent>
    requires { letter_wants letter.now ≡ Rest }
    ensures { EndsSo letter.now result }
{
    if !letter.is_text_whole() {
        return Err(Unsent::NoText);
    }
    match letter.copies().end() {
        Some(end) => Ok(end),
        None => unreachable!(),
    }
}

// Works a letter off at these doors, which are its card's.
fn send_to<D: Disk, N: Net>(
    kept: &mut Kept<KeptLetter, D>,
    places: &Places<'_>,
    net: &mut N,
) -> Result<LetterEnd, Unsent>
    requires places { AreItsPlaces kept.old.machine.letter.plan places.now }
    requires durable { kept.old.journal.closed ≡ false
        → IsDurable letter_rules (sight D.disk D.Counted.seen kept.old) }
    ensures sent { SentBy D.disk D.Counted.seen kept.old kept.new result
        (N.seen net.old).calls (N.seen net.new).calls }
    ensures durable { kept.new.journal.closed ≡ false
        → IsDurable letter_rules (sight D.disk D.Counted.seen kept.new) }
    ensures net_fault { NetFaultBy (work_of result) (N.seen net.old).faults (N.seen net.new).faults }
    ensures disk_fault { DiskFaultBy (work_of result) (D.Counted.seen kept.old.disk).faults
        (D.Counted.seen kept.new.disk).faults }
    ensures door { (N.seen net.new).doors ≡ (N.seen net.old).doors }
{
    match work(kept, places, net) {
        Ok(()) => end_in(kept.machine().letter()),
        Err(why) => Err(Unsent::Halted(why)),
    }
}

/// Works a letter off at the doors that its card names, and gives its end. Where it isn't at its end it
/// stands where it had come to, and may be sent on: no copy is written twice (`laws`), and what its end
/// tells is so (`letter_copies::laws::ends_are_true`).
pub fn send_letter<D: Disk, N: Net>(
    alloc: Global,
    kept: &mut Kept<KeptLetter, D>,
    net: &mut N,
) -> Result<LetterEnd, Unsent>
    ensures sent { SentBy D.disk D.Counted.seen kept.old kept.new result
        (N.seen net.old).calls (N.seen net.new).calls }
    // What that letter asks for is the write of its pieces, each at a place of its part, and each copy is
    // accepted once at most.
    ensures pieces { PiecesGoToTheirPlaces }
    ensures once { LettersAreRunsOfTries }
    ensures durable { kept.new.journal.closed ≡ false
        → IsDurable letter_rules (sight D.disk D.Counted.seen kept.new) }
    ensures net_fault { NetFaultBy (work_of result) (N.seen net.old).faults (N.seen net.new).faults }
    ensures disk_fault { DiskFaultBy (work_of result) (D.Counted.seen kept.old.disk).faults
        (D.Counted.seen kept.new.disk).faults }
    ensures door { (N.seen net.new).doors ≡ (N.seen net.old).doors }
{
    pieces_go_to_their_places();
    letters_are_runs_of_tries();
    let plan = kept.machine().letter().plan();
    let Ok(leader) = copy_of(alloc, &plan.card.leader) else {
        return Err(Unsent::NoMemory);
    };
    let Ok(helper) = copy_of(alloc, &plan.card.helper) else {
        return Err(Unsent::NoMemory);
    };
    let Some(leader) = Place::of(leader.as_str()) else {
        return Err(Unsent::NoPlace(Role::Leader));
    };
    let Some(helper) = Place::of(helper.as_str()) else {
        return Err(Unsent::NoPlace(Role::Helper));
    };
    send_to(kept, &Places { leader, helper }, net)
}
