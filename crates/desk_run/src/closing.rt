//! The word `retire` without `--now`: it closes boxes.
ghost use Rattle.std.specs.Prelude.{◌≡◌, ◌≢◌, IfOk, IfErr, Ok, OnOk, string_bytes};
ghost use Rattle.desk_run.specs.Closing.{closed_line, good_line, nobody_reads, since_text, still_read, until_text};
ghost use Rattle.desk_run.specs.Ends.{IsUndone, Unfailed};
ghost use Rattle.desk_run.specs.Scenes.{scene};
ghost use Rattle.desk_run.specs.FolderSteps.{FolderStepsOn};

use crate::around::Around;
use crate::ending::WordEnd;
use crate::ledgers::{check_room, desk_in};
use crate::saying::say;
use crate::trouble::Trouble;
use desk_ledger::Ledger;
use desk_outside::{Clock, Folder, Papers};
use desk_texts::{Day, day_text};
use express_words::NoMemory;
use express_words::outside::{Net, Sink, Source};
use node_journal::Disk;
use std::alloc::Global;

// Since when the boxes of a name are closed.
#[tactic(auto, unfolding(crate::specs::Closing::since_text))]
fn since_text(alloc: Global, name: &str, day: &Day) -> Result<String, NoMemory>
    ensures { IfOk result (λ text. string_bytes text ≡ since_text name.now day.now) }
{
    let day = day_text(alloc, day)?;
    let text = format!(in alloc; "the boxes of {name} are closed since {day}")?;
    Ok(text)
}

// How long they are read.
#[tactic(auto, unfolding(crate::specs::Closing::still_read))]
fn still_read(alloc: Global, name: &str) -> Result<String, NoMemory>
    ensures { IfOk result (λ text. string_bytes text ≡ still_read name.now) }
{
    let text = format!(in alloc;
        "; letters still reads them, and retire --now {name} gives them up\n"
    )?;
    Ok(text)
}

// Both, as one line.
pub(crate) fn closed_text(alloc: Global, name: &str, day: &Day) -> Result<String, NoMemory>
    ensures { IfOk result (λ text. string_bytes text ≡ closed_line name.now day.now) }
{
    let mut text = since_text(alloc, name, day)?;
    let rest = still_read(alloc, name)?;
    text.push_str(rest.as_str())?;
    Ok(text)
}

// How long the card is good.
fn until_text(alloc: Global, last: Option<Day>) -> Result<String, NoMemory>
    ensures { IfOk result (λ text. string_bytes text ≡ until_text last) }
{
    match last {
        Some(day) => {
            let day = day_text(alloc, &day)?;
            let text = format!(in alloc; "its card is good until {day}")?;
            Ok(text)
        }
        None => {
            let text = String::from_str(alloc, "its card has no last day")?;
            Ok(text)
        }
    }
}

// What becomes of letters once the boxes are gone.
#[tactic(auto, unfolding(crate::specs::Closing::nobody_reads))]
fn nobody_reads(alloc: Global, name: &str) -> Result<String, NoMemory>
    ensures { IfOk result (λ text. string_bytes text ≡ nobody_reads name.now) }
{
    let text = format!(in alloc;
        "; once retire --now {name} has given the boxes up, whoever sends with it is told written, and nobody reads it\n"
    )?;
    Ok(text)
}

// Both, as one line.
fn good_text(alloc: Global, name: &str, last: Option<Day>) -> Result<String, NoMemory>
    ensures { IfOk result (λ text. string_bytes text ≡ good_line name.now last) }
{
    let mut text = until_text(alloc, last)?;
    let rest = nobody_reads(alloc, name)?;
    text.push_str(rest.as_str())?;
    Ok(text)
}

// Tells since when the boxes of a name are closed.
fn tell_closed<'a, D: Disk, K: Sink>(
    alloc: Global,
    ledger: &Ledger<D>,
    name: &'a str,
    out: &mut K,
) -> Result<(), Trouble<'a>>
    ensures undone { IfErr result IsUndone }
    ensures sink { Unfailed (K.seen out.old).faults (K.seen out.new).faults result }
{
    let Some(day) = ledger.closed_at(name) else {
        return Err(Trouble::NoName(name));
    };
    let closed = closed_text(alloc, name, &day)?;
    say(out, closed.as_str())?;
    let good = good_text(alloc, name, ledger.last_day(name))?;
    say(out, good.as_str())
}

// Notes that the boxes of a name are closed now, where they weren't before.
fn close_name<'a, D: Disk, C: Clock>(
    ledger: &mut Ledger<D>,
    name: &'a str,
    clock: &mut C,
) -> Result<(), Trouble<'a>>
    ensures undone { IfErr result IsUndone }
{
    check_room(ledger)?;
    let Ok(seconds) = clock.now() else {
        return Err(Trouble::Clock);
    };
    if ledger.close_name(name, Day::of(seconds))? {
        Ok(())
    } else {
        Err(Trouble::NoName(name))
    }
}

/// Closes the boxes of a name: they are still read, and the card isn't to be handed out any more.
pub(crate) fn close<'a, S: Source, K: Sink, N: Net, F: Folder, P: Papers, C: Clock>(
    alloc: Global,
    name: &'a str,
    around: &mut Around<S, K, N, F, P, C>,
) -> Result<WordEnd, Trouble<'a>>
    ensures undone { IfErr result IsUndone }
    ensures not_met { result ≢ Ok WordEnd.Met }
    ensures sink { Unfailed (K.seen around.old.out).faults (K.seen around.new.out).faults result }
    ensures net { around.new.net ≡ around.old.net }
    ensures steps { FolderStepsOn F.File.disk F.File.Counted.seen
        (F.calls around.old.folder) (F.calls around.new.folder) }
{
    let mut ledger = desk_in(alloc, &mut around.folder)?;
    let closed = close_name(&mut ledger, name, &mut around.clock);
    let told = match closed {
        Ok(()) => tell_closed(alloc, &ledger, name, &mut around.out),
        Err(trouble) => Err(trouble),
    };
    drop(ledger);
    told?;
    Ok(WordEnd::Done)
}
