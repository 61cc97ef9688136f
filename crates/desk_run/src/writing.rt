//! Letters, written to files.
ghost use Rattle.std.specs.Prelude.{◌≡◌, ◌≢◌, ◌≤◌, ◌<◌, ℕ, List as Listed, [], Err, IfErr, IfOk, OnOk, false, length, max, string_bytes, true};
ghost use Rattle.std.specs.List.{list_any};
ghost use Rattle.desk_entries.specs.Letters.{letters_of, shown_of, written_of};
ghost use Rattle.desk_ledger.specs.Ledgers.{EntriesOnly};
ghost use Rattle.desk_ledger.specs.Tags.{tag_of};
ghost use Rattle.desk_run.specs.Changes.{NotesWritten};
ghost use Rattle.desk_run.specs.Ends.{IsCause, IsUndone, Unfailed};
ghost use Rattle.desk_run.specs.Printing.{Prints, TellsMet};
ghost use Rattle.desk_run.specs.Shown.{is_met, lent};
ghost use Rattle.desk_run.specs.Told.{TellsFiles, TellsRead, TellsUnwritten, file_line, file_name, place_text, unwritten_letters};

use crate::moment::moment_text;
use crate::saying::say;
use crate::showing::{ShownLetters, either, is_met, met_text};
use crate::trouble::Trouble;
use desk_entries::{Held, Reading};
use desk_ledger::Ledger;
use desk_outside::Papers;
use express_words::NoMemory;
use express_words::outside::Sink;
use node_journal::Disk;
use std::alloc::Global;

/// Where letters go, and by what the desk's are told from another desk's.
#[derive(Clone, Copy)]
pub(crate) struct Target<'a> {
    pub(crate) folder: &'a str,
    pub(crate) tag: u32,
}

// The name of a letter's file, by the number of the request that read it, and the desk's tag.
#[tactic(auto, unfolding(crate::specs::Told::file_name))]
fn file_name(alloc: Global, name: &str, serial: u32, tag: u32) -> Result<String, NoMemory>
    ensures { IfOk result (λ file. string_bytes file ≡ file_name name.now serial tag) }
{
    let text = format!(in alloc; "{name}-{serial}-{tag}.txt")?;
    Ok(text)
}

#[tactic(auto, unfolding(crate::specs::Told::place_text))]
fn place_text(alloc: Global, folder: &str, file: &str) -> Result<String, NoMemory>
    ensures { IfOk result (λ text. string_bytes text ≡ place_text folder.now file.now) }
{
    let text = format!(in alloc; ": {folder}/{file}\n")?;
    Ok(text)
}

#[tactic(auto, unfolding(crate::specs::Told::file_line))]
fn line_at(
    alloc: Global,
    name: &str,
    moment: &str,
    folder: &str,
    file: &str,
) -> Result<String, NoMemory>
    ensures { IfOk result (λ text. string_bytes text ≡ file_line folder.now name.now moment.now file.now) }
{
    let mut text = format!(in alloc; "letter from box {name}, read ")?;
    text.push_str(moment)?;
    let place = place_text(alloc, folder, file)?;
    text.push_str(place.as_str())?;
    Ok(text)
}

// What is told of a letter that is in its file.
fn line_text(
    alloc: Global,
    name: &str,
    reading: &Reading,
    target: &Target<'_>,
) -> Result<String, NoMemory>
    ensures { IfOk result (λ text. (moment : Listed ℕ) × (string_bytes text
        ≡ file_line target.now.folder.now name.now moment
        (file_name name.now reading.now.serial target.now.tag))) }
{
    let moment = moment_text(alloc, reading.seconds)?;
    let file = file_name(alloc, name, reading.serial, target.tag)?;
    line_at(alloc, name, moment.as_str(), target.folder, file.as_str())
}

// What is told of what a box held.
fn told_text(
    alloc: Global,
    target: &Target<'_>,
    name: &str,
    reading: &Reading,
) -> Result<String, NoMemory>
    ensures { IfOk result (λ text. TellsRead target.now.folder.now target.now.tag name.now reading.now
        (string_bytes text)) }
{
    match &reading.held {
        Held::Nothing => Ok(String::new(alloc)),
        Held::Met => met_text(alloc, name),
        Held::Letter { .. } => line_text(alloc, name, reading, target),
    }
}

// Writes a letter into its file.
fn write_file<'a, P: Papers>(
    alloc: Global,
    target: &Target<'a>,
    name: &str,
    reading: &Reading,
    papers: &mut P,
) -> Result<(), Trouble<'a>>
    ensures { IfErr result IsUndone }
{
    if let Held::Letter { id: _, text } = &reading.held {
        let file = file_name(alloc, name, reading.serial, target.tag)?;
        if papers
            .write(target.folder, file.as_str(), text.as_slice())
            .is_err()
        {
            return Err(Trouble::Unwritten(target.folder));
        }
    }
    Ok(())
}

// Writes what a box held into its file, and says so.
fn write_letter<'a, P: Papers, K: Sink>(
    alloc: Global,
    target: &Target<'a>,
    name: &str,
    reading: &Reading,
    papers: &mut P,
    out: &mut K,
) -> Result<(), Trouble<'a>>
    ensures told { OnOk result (Prints (TellsRead target.now.folder.now target.now.tag name.now reading.now)
        (K.seen out.old).written (K.seen out.new).written) }
    ensures undone { IfErr result IsUndone }
    ensures sink { Unfailed (K.seen out.old).faults (K.seen out.new).faults result }
{
    write_file(alloc, target, name, reading, papers)?;
    let text = told_text(alloc, target, name, reading)?;
    say(out, text.as_str())
}

fn write_all<'a, D: Disk, P: Papers, K: Sink>(
    alloc: Global,
    target: &Target<'a>,
    ledger: &Ledger<D>,
    readings: &[&Reading],
    papers: &mut P,
    out: &mut K,
) -> Result<bool, Trouble<'a>>
    ensures each { OnOk result (Prints
        (TellsFiles target.now.folder.now target.now.tag ledger.now.entries (lent readings.now))
        (K.seen out.old).written (K.seen out.new).written) }
    ensures met { IfOk result (λ met. met ≡ list_any is_met (lent readings.now)) }
    ensures told { IfOk result (λ met. met ≡ true
        → Prints TellsMet (K.seen out.old).written (K.seen out.new).written) }
    ensures undone { IfErr result IsUndone }
    ensures sink { Unfailed (K.seen out.old).faults (K.seen out.new).faults result }
{
    let mut met = false;
    let mut rest = readings;
    'readings: while let [reading, behind @ ..] = rest {
        let name = ledger.name_of(reading.registered);
        write_letter(alloc, target, name, reading, papers, out)?;
        met = either(met, is_met(reading));
        rest = behind;
    }
    Ok(met)
}

// Writes the letters of the ledger that weren't written before, those too that were shown.
fn write_those<'a, D: Disk, P: Papers, K: Sink>(
    alloc: Global,
    folder: &'a str,
    ledger: &Ledger<D>,
    papers: &mut P,
    out: &mut K,
) -> Result<ShownLetters, Trouble<'a>>
    ensures each { OnOk result (Prints (TellsUnwritten folder.entry.now (tag_of ledger.now.client.opening.seed) ledger.now.entries)
        (K.seen out.old).written (K.seen out.new).written) }
    ensures count { IfOk result (λ shown. shown.count ≡ length (letters_of ledger.now.entries)) }
    ensures none { IfOk result (λ shown. shown.any ≡ false
        → length (letters_of ledger.now.entries) ≤ written_of ledger.now.entries) }
    ensures some { IfOk result (λ shown. shown.any ≡ true
        → written_of ledger.now.entries < length (letters_of ledger.now.entries)) }
    ensures met { IfOk result (λ shown. shown.met ≡ list_any is_met (unwritten_letters ledger.now.entries)) }
    ensures told { IfOk result (λ shown. shown.met ≡ true
        → Prints TellsMet (K.seen out.old).written (K.seen out.new).written) }
    ensures undone { IfErr result IsUndone }
    ensures sink { Unfailed (K.seen out.old).faults (K.seen out.new).faults result }
{
    let target = Target {
        folder,
        tag: ledger.tag(),
    };
    let letters = ledger.letters()?;
    let count = letters.len();
    let from = (ledger.written() as usize).min(count);
    let met = write_all(alloc, &target, ledger, &letters[from..], papers, out)?;
    Ok(ShownLetters {
        count,
        any: from < count,
        met,
    })
}

// Notes that so many letters are in files, where not so many were.
#[tactic(auto, using(crate::proofs::NoteLaws::letters_written, crate::proofs::NoteLaws::shown_written))]
fn note_files<'a, D: Disk>(ledger: &mut Ledger<D>, count: u32, any: bool) -> Result<(), Trouble<'a>>
    requires none { any ≡ false → count ≤ written_of ledger.old.entries }
    requires some { any ≡ true → written_of ledger.old.entries < count }
    ensures written { OnOk result (written_of ledger.new.entries ≡ max count (written_of ledger.old.entries)) }
    ensures shown { OnOk result (shown_of ledger.new.entries ≡ shown_of ledger.old.entries) }
    ensures letters { OnOk result (letters_of ledger.new.entries ≡ letters_of ledger.old.entries) }
    ensures only { EntriesOnly ledger.old ledger.new }
    ensures cause { IfErr result IsCause }
{
    if any {
        ledger.mark_written(count)?;
    }
    Ok(())
}

// Notes that so many letters were seen, where not so many were.
#[tactic(auto, using(crate::proofs::NoteLaws::letters_shown, crate::proofs::NoteLaws::written_shown))]
fn note_seen<'a, D: Disk>(ledger: &mut Ledger<D>, count: u32) -> Result<(), Trouble<'a>>
    ensures shown { OnOk result (shown_of ledger.new.entries ≡ max count (shown_of ledger.old.entries)) }
    ensures written { OnOk result (written_of ledger.new.entries ≡ written_of ledger.old.entries) }
    ensures letters { OnOk result (letters_of ledger.new.entries ≡ letters_of ledger.old.entries) }
    ensures only { EntriesOnly ledger.old ledger.new }
    ensures cause { IfErr result IsCause }
{
    if ledger.shown() < count {
        ledger.mark_shown(count)?;
    }
    Ok(())
}

// Notes that so many letters were written, where not so many were, and that they were shown.
#[tactic(auto, using(crate::proofs::NoteLaws::notes_both))]
fn note_written<'a, D: Disk>(
    ledger: &mut Ledger<D>,
    written: ShownLetters,
) -> Result<(), Trouble<'a>>
    requires none { written.any ≡ false → written.count ≤ written_of ledger.old.entries }
    requires some { written.any ≡ true → written_of ledger.old.entries < written.count }
    ensures notes { OnOk result (NotesWritten written.count ledger.old ledger.new) }
    ensures cause { IfErr result IsCause }
{
    let Ok(count) = u32::try_from(written.count) else {
        return Err(Trouble::Full);
    };
    note_files(ledger, count, written.any)?;
    note_seen(ledger, count)
}

/// Writes the letters that weren't written before into files of a folder, and notes then that they were written and shown.
#[tactic(auto, using(crate::proofs::ShowLaws::none_unwritten, crate::proofs::ShowLaws::some_unwritten))]
pub(crate) fn write_letters<'a, D: Disk, P: Papers, K: Sink>(
    alloc: Global,
    folder: &'a str,
    ledger: &mut Ledger<D>,
    papers: &mut P,
    out: &mut K,
) -> Result<ShownLetters, Trouble<'a>>
    ensures each { OnOk result (Prints (TellsUnwritten folder.entry.now (tag_of ledger.old.client.opening.seed) ledger.old.entries)
        (K.seen out.old).written (K.seen out.new).written) }
    ensures none { IfOk result (λ shown. shown.any ≡ false → unwritten_letters ledger.old.entries ≡ []) }
    ensures some { IfOk result (λ shown. shown.any ≡ true → unwritten_letters ledger.old.entries ≢ []) }
    ensures met { IfOk result (λ shown. shown.met ≡ list_any is_met (unwritten_letters ledger.old.entries)) }
    ensures notes { IfOk result (λ shown. NotesWritten shown.count ledger.old ledger.new) }
    ensures count { IfOk result (λ shown. shown.count ≡ length (letters_of ledger.old.entries)) }
    ensures told { IfOk result (λ shown. shown.met ≡ true
        → Prints TellsMet (K.seen out.old).written (K.seen out.new).written) }
    // Where they couldn't be written, or that couldn't be told, they weren't noted.
    ensures unshown { result ≡ Err Trouble.Out → ledger.new ≡ ledger.old }
    ensures undone { IfErr result IsUndone }
    ensures sink { Unfailed (K.seen out.old).faults (K.seen out.new).faults result }
{
    let written = write_those(alloc, folder, ledger, papers, out)?;
    note_written(ledger, written)?;
    Ok(written)
}
