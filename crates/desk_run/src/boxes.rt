//! The word `box`.
ghost use Rattle.std.specs.Prelude.{◌≡◌, ◌≢◌, IfErr, IfOk, IfSome, OnOk, length, Ok};
ghost use Rattle.desk_texts.specs.Days.{IsDay};
ghost use Rattle.desk_run.specs.Carried.{OnceResumed};
ghost use Rattle.desk_run.specs.Changes.{TellsCard, WantsBoxes};
ghost use Rattle.desk_run.specs.Ends.{IsOfName, IsUndone, Unfailed};
ghost use Rattle.desk_run.specs.Printing.{Prints};
ghost use Rattle.desk_run.specs.Scenes.{scene};
ghost use Rattle.desk_run.specs.Sends.{SendsOn};
ghost use Rattle.desk_run.specs.Words.{OpensBoxes};
ghost use Rattle.desk_run.specs.FolderSteps.{FolderStepsOn};

use crate::around::Around;
use crate::cards::show_card;
use crate::carrying::carry_on;
use crate::ending::WordEnd;
use crate::ledgers::check_room;
use crate::resuming::desk_resumed;
use crate::saying::say;
use crate::trouble::Trouble;
use desk_draws::Draws;
use desk_ledger::{Ledger, NameFault};
use desk_outside::{Clock, Folder, Papers};
use desk_texts::Day;
use express_words::NoMemory;
use express_words::outside::{Net, Sink, Source};
use node_journal::Disk;
use std::alloc::Global;

// So many addresses, drawn by lot.
fn drawn(alloc: Global, draws: &mut Draws, count: u32) -> Result<Vec<u128>, NoMemory>
    ensures { IfOk result (λ addresses. length addresses.items ≡ count) }
{
    let mut addresses = Vec::new(alloc);
    for _ in 0..count {
        addresses.push(draws.address())?;
    }
    Ok(addresses)
}

/// Boxes that are wanted: so many, with this name, for a card with this last day, or else one in a year.
#[derive(Clone, Copy)]
pub(crate) struct Wanted<'a> {
    pub(crate) name: &'a str,
    pub(crate) count: u32,
    pub(crate) until: Option<Day>,
}

// The last day of the card: the one that is named, else the same day in a year.
fn last_day<'a, C: Clock>(until: Option<Day>, clock: &mut C) -> Result<Day, Trouble<'a>>
    ensures named { IfOk result (λ day. IfSome until (λ named. IsDay named → day ≡ named)) }
    ensures day { IfOk result IsDay }
    ensures undone { IfErr result IsUndone }
{
    match until {
        Some(day) if day.is_day() => Ok(day),
        _ => match clock.now() {
            Ok(seconds) => Ok(Day::of(seconds).in_a_year()),
            Err(_) => Err(Trouble::Clock),
        },
    }
}

// Wants so many boxes with a name, where there are none yet. Says whether there were some before.
fn want<'a, D: Disk>(
    alloc: Global,
    ledger: &mut Ledger<D>,
    wanted: &Wanted<'_>,
    day: Day,
    draws: &mut Draws,
) -> Result<bool, Trouble<'a>>
    requires day { IsDay day }
    ensures wants { OnOk result (WantsBoxes wanted.now.name.now wanted.now.count day ledger.old ledger.new) }
    ensures trouble { IfErr result IsOfName }
{
    let addresses = drawn(alloc, draws, wanted.count)?;
    match ledger.add_name(wanted.name, &addresses, Some(day))? {
        Ok(()) => Ok(false),
        Err(NameFault::Used) => Ok(true),
        Err(fault) => Err(Trouble::Name(fault)),
    }
}

// What is told where a name has no card.
fn no_card<'a>(used: bool) -> Trouble<'a>
    ensures { IsOfName result }
{
    if used {
        Trouble::Name(NameFault::Used)
    } else {
        Trouble::NoRoom
    }
}

// Prints the card of a name, and what it is for.
fn tell_card<'a, D: Disk, K: Sink>(
    alloc: Global,
    ledger: &Ledger<D>,
    name: &'a str,
    out: &mut K,
) -> Result<(), Trouble<'a>>
    ensures told { OnOk result (Prints (TellsCard ledger.now name.entry.now) (K.seen out.old).written
        (K.seen out.new).written) }
    ensures undone { IfErr result IsUndone }
    ensures sink { Unfailed (K.seen out.old).faults (K.seen out.new).faults result }
{
    show_card(alloc, ledger, name, out)?;
    say(
        out,
        "\nThis is the card of these boxes: hand out its lines as they stand.\n",
    )
}

// Registers boxes at a desk that was resumed, and prints their card.
fn register<'a, S: Source, K: Sink, N: Net, F: Folder, P: Papers, C: Clock>(
    alloc: Global,
    wanted: Wanted<'a>,
    draws: &mut Draws,
    ledger: &mut Ledger<F::File>,
    around: &mut Around<S, K, N, F, P, C>,
) -> Result<(), Trouble<'a>>
    ensures done { OnOk result (OnceResumed F.File.disk ledger.old (scene K.seen N.seen F.calls around.old)
        (λ old. OpensBoxes F.File.disk wanted.entry old (scene K.seen N.seen F.calls around.new))) }
    ensures trouble { IfErr result IsOfName }
    ensures sink { Unfailed (K.seen around.old.out).faults (K.seen around.new.out).faults result }
    ensures net { Unfailed (N.seen around.old.net).faults (N.seen around.new.net).faults result }
    ensures sends { SendsOn F.File.disk F.File.Counted.seen
        (N.seen around.old.net).calls (N.seen around.new.net).calls }
    ensures steps { FolderStepsOn F.File.disk F.File.Counted.seen
        (F.calls around.old.folder) (F.calls around.new.folder) }
{
    check_room(ledger)?;
    let day = last_day(wanted.until, &mut around.clock)?;
    let used = want(alloc, ledger, &wanted, day, draws)?;
    carry_on(ledger, &mut around.net, &mut around.clock)?;
    if ledger.card(wanted.name)?.is_none() {
        return Err(no_card(used));
    }
    tell_card(alloc, ledger, wanted.name, &mut around.out)
}

/// The word `box`: registers boxes under a name, so many as are wanted, and prints their card. Boxes of that name that
/// are there stay.
pub(crate) fn open_boxes<'a, S: Source, K: Sink, N: Net, F: Folder, P: Papers, C: Clock>(
    alloc: Global,
    wanted: Wanted<'a>,
    draws: &mut Draws,
    around: &mut Around<S, K, N, F, P, C>,
) -> Result<WordEnd, Trouble<'a>>
    ensures done { OnOk result (OpensBoxes F.File.disk wanted.entry
        (scene K.seen N.seen F.calls around.old) (scene K.seen N.seen F.calls around.new)) }
    ensures trouble { IfErr result IsOfName }
    ensures not_met { result ≢ Ok WordEnd.Met }
    ensures sink { Unfailed (K.seen around.old.out).faults (K.seen around.new.out).faults result }
    ensures net { Unfailed (N.seen around.old.net).faults (N.seen around.new.net).faults result }
    ensures sends { SendsOn F.File.disk F.File.Counted.seen
        (N.seen around.old.net).calls (N.seen around.new.net).calls }
    ensures steps { FolderStepsOn F.File.disk F.File.Counted.seen
        (F.calls around.old.folder) (F.calls around.new.folder) }
{
    let mut ledger = desk_resumed(alloc, around)?;
    let registered = register(alloc, wanted, draws, &mut ledger, around);
    drop(ledger);
    registered?;
    Ok(WordEnd::Done)
}
