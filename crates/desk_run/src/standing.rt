//! The word `status`.
ghost use Rattle.std.specs.Prelude.{◌≡◌, ◌≢◌, ◌-◌, IfErr, IfOk, OnOk, Ok, length, string_bytes};
ghost use Rattle.express_words.specs.Streams.{Took};
ghost use Rattle.desk_entries.specs.Letters.{letters_of, shown_of};
ghost use Rattle.desk_run.specs.Ends.{IsUndone, Unfailed};
ghost use Rattle.desk_run.specs.Printing.{Prints};
ghost use Rattle.desk_run.specs.Standings.{IsDone, TellsDesk, TellsWork, boxes_line, boxes_lines, count_of, full_line, hundredths, letters_line, line_of, pair_line, work_text, work_words};
ghost use Rattle.desk_run.specs.Words.{ShowsStatus, StatusBy};
ghost use Rattle.desk_run.specs.FolderSteps.{FolderStepsOn};

use crate::closing::closed_text;
use crate::ending::WordEnd;
use crate::ledgers::{hundredths, ledger_in};
use crate::listing::say_letters;
use crate::saying::say;
use crate::trouble::Trouble;
use desk_entries::{Entry, NamedBoxes, Standing, addresses};
use desk_ledger::{Ledger, Pair};
use desk_outside::{DeskFile, Folder, Slot};
use express_words::NoMemory;
use express_words::outside::Sink;
use node_journal::Disk;
use std::alloc::Global;

#[tactic(auto, unfolding(crate::specs::Standings::pair_line))]
fn pair_text(alloc: Global, pair: &Pair) -> Result<String, NoMemory>
    ensures { IfOk result (λ text. string_bytes text ≡ pair_line pair.now) }
{
    let leader = pair.leader.as_str();
    let helper = pair.helper.as_str();
    let text = format!(in alloc; "servers: {leader} and {helper}\n")?;
    Ok(text)
}

fn count_of(
    alloc: Global,
    entries: &[Entry],
    named: &NamedBoxes,
    standing: Standing,
) -> Result<usize, NoMemory>
    ensures { IfOk result (λ count. count ≡ count_of entries.now named.now standing) }
{
    let found = addresses(alloc, entries, named, standing)?;
    Ok(found.len())
}

#[tactic(auto, unfolding(crate::specs::Standings::boxes_line))]
fn counts_text(
    alloc: Global,
    name: &str,
    live: usize,
    waiting: usize,
    retired: usize,
) -> Result<String, NoMemory>
    ensures { IfOk result (λ text. string_bytes text ≡ boxes_line name.now live waiting retired) }
{
    let text = format!(in alloc;
        "box {name}: {live} in use, {waiting} to be made yet, {retired} retired\n"
    )?;
    Ok(text)
}

fn boxes_text(alloc: Global, entries: &[Entry], named: &NamedBoxes) -> Result<String, NoMemory>
    ensures { IfOk result (λ text. string_bytes text ≡ line_of entries.now (Entry.Named named.now)) }
{
    let live = count_of(alloc, entries, named, Standing::Live)?;
    let waiting = count_of(alloc, entries, named, Standing::Waiting)?;
    let retired = count_of(alloc, entries, named, Standing::Retired)?;
    counts_text(alloc, named.name.as_str(), live, waiting, retired)
}

// What is told of an entry: of one that gives boxes a name how many there are, of one that closes them since when.
fn entry_text(alloc: Global, entries: &[Entry], entry: &Entry) -> Result<String, NoMemory>
    ensures { IfOk result (λ text. string_bytes text ≡ line_of entries.now entry.now) }
{
    match entry {
        Entry::Named(named) => boxes_text(alloc, entries, named),
        Entry::Closed(closed) => closed_text(alloc, closed.name.as_str(), &closed.day),
        _ => Ok(String::new(alloc)),
    }
}

fn say_entry<'a, K: Sink>(
    alloc: Global,
    entries: &[Entry],
    entry: &Entry,
    out: &mut K,
) -> Result<(), Trouble<'a>>
    ensures said { OnOk result (Took (K.seen out.old).written (K.seen out.new).written
        (line_of entries.now entry.now)) }
    ensures undone { IfErr result IsUndone }
    ensures sink { Unfailed (K.seen out.old).faults (K.seen out.new).faults result }
{
    let text = entry_text(alloc, entries, entry)?;
    say(out, text.as_str())
}

fn say_boxes<'a, K: Sink>(alloc: Global, entries: &[Entry], out: &mut K) -> Result<(), Trouble<'a>>
    ensures said { OnOk result (Took (K.seen out.old).written (K.seen out.new).written
        (boxes_lines entries.now)) }
    ensures undone { IfErr result IsUndone }
    ensures sink { Unfailed (K.seen out.old).faults (K.seen out.new).faults result }
{
    'entries: for entry in entries.iter() {
        say_entry(alloc, entries, entry, out)?;
    }
    Ok(())
}

fn work_words(is_done: bool) -> &'static str
    ensures { result.now ≡ work_words is_done }
{
    if is_done {
        "nothing is under way\n"
    } else {
        "something is under way: run resume\n"
    }
}

#[tactic(auto, unfolding(crate::specs::Standings::letters_line))]
fn letters_text(alloc: Global, letters: usize, new: usize) -> Result<String, NoMemory>
    ensures { IfOk result (λ text. string_bytes text ≡ letters_line letters new) }
{
    let text = format!(in alloc; "letters: {letters}, of which {new} weren't shown yet\n")?;
    Ok(text)
}

#[tactic(auto, unfolding(crate::specs::Standings::full_line))]
fn full_text(alloc: Global, full: u64) -> Result<String, NoMemory>
    ensures { IfOk result (λ text. string_bytes text ≡ full_line full) }
{
    let text = format!(in alloc; "the desk is {full}% full; forget empties it\n")?;
    Ok(text)
}

fn figures_text(
    alloc: Global,
    is_done: bool,
    letters: usize,
    new: usize,
    full: u64,
) -> Result<String, NoMemory>
    ensures { IfOk result (λ text. string_bytes text ≡ work_text is_done letters new full) }
{
    let mut text = String::from_str(alloc, work_words(is_done))?;
    let letters = letters_text(alloc, letters, new)?;
    text.push_str(letters.as_str())?;
    let full = full_text(alloc, full)?;
    text.push_str(full.as_str())?;
    Ok(text)
}

// Whether nothing is under way, and nothing is left to be done.
fn is_done<D: Disk>(ledger: &Ledger<D>) -> Result<bool, NoMemory>
    ensures { IfOk result (λ done. IsDone ledger.now done) }
{
    let next = ledger.next_task()?;
    Ok(ledger.is_idle() && next.is_none())
}

fn letter_count<D: Disk>(ledger: &Ledger<D>) -> Result<usize, NoMemory>
    ensures { IfOk result (λ count. count ≡ length (letters_of ledger.now.entries)) }
{
    let letters = ledger.letters()?;
    Ok(letters.len())
}

// How many of so many letters were not shown.
fn new_count<D: Disk>(ledger: &Ledger<D>, letters: usize) -> usize
    ensures { result ≡ letters - shown_of ledger.now.entries }
{
    letters.saturating_sub(ledger.shown() as usize)
}

// How many hundredths of its room the ledger takes.
fn fullness<D: Disk>(ledger: &Ledger<D>) -> u64
    ensures { result ≡ hundredths ledger.now.client.journal.end }
{
    hundredths(ledger.used())
}

fn work_text<D: Disk>(alloc: Global, ledger: &Ledger<D>) -> Result<String, NoMemory>
    ensures { IfOk result (λ text. TellsWork ledger.now (string_bytes text)) }
{
    let is_done = is_done(ledger)?;
    let letters = letter_count(ledger)?;
    let new = new_count(ledger, letters);
    let full = fullness(ledger);
    let text = figures_text(alloc, is_done, letters, new, full)?;
    Ok(text)
}

fn say_ledger<'a, D: Disk, K: Sink>(
    alloc: Global,
    ledger: &Ledger<D>,
    out: &mut K,
) -> Result<(), Trouble<'a>>
    ensures told { OnOk result
        (Prints (TellsDesk ledger.now) (K.seen out.old).written (K.seen out.new).written) }
    ensures undone { IfErr result IsUndone }
    ensures sink { Unfailed (K.seen out.old).faults (K.seen out.new).faults result }
{
    let pair = pair_text(alloc, ledger.pair())?;
    say(out, pair.as_str())?;
    say_boxes(alloc, ledger.entries(), out)?;
    let work = work_text(alloc, ledger)?;
    say(out, work.as_str())
}

// Tells of the desk, or that there is none.
fn say_desk<'a, D: Disk, K: Sink>(
    alloc: Global,
    ledger: &Option<Ledger<D>>,
    out: &mut K,
) -> Result<(), Trouble<'a>>
    ensures told { OnOk result
        (Prints (StatusBy ledger.now) (K.seen out.old).written (K.seen out.new).written) }
    ensures undone { IfErr result IsUndone }
    ensures sink { Unfailed (K.seen out.old).faults (K.seen out.new).faults result }
{
    match ledger {
        Some(ledger) => say_ledger(alloc, ledger, out),
        None => say(out, "there is no desk here\n"),
    }
}

/// The word `status`: tells how the desk stands, and which letters are on their way.
pub(crate) fn status<'a, F: Folder, K: Sink>(
    alloc: Global,
    folder: &mut F,
    out: &mut K,
) -> Result<WordEnd, Trouble<'a>>
    ensures done { OnOk result (ShowsStatus F.File.disk (F.calls folder.old) (F.calls folder.new)
        (K.seen out.old).written (K.seen out.new).written) }
    ensures undone { IfErr result IsUndone }
    ensures not_met { result ≢ Ok WordEnd.Met }
    ensures sink { Unfailed (K.seen out.old).faults (K.seen out.new).faults result }
    ensures steps { FolderStepsOn F.File.disk F.File.Counted.seen (F.calls folder.old) (F.calls folder.new) }
{
    let ledger = ledger_in(alloc, folder)?;
    let said = say_desk(alloc, &ledger, out);
    drop(ledger);
    said?;
    say_letters(alloc, folder, out)?;
    Ok(WordEnd::Done)
}
