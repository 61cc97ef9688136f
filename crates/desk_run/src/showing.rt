//! Letters, shown.
ghost use Rattle.std.specs.Prelude.{◌≡◌, ◌≢◌, ◌≤◌, ◌<◌, ◌++◌, ◌||◌, [], ◌∷◌, codes, Err, IfErr, IfOk, OnOk, false, length, string_bytes, true};
ghost use Rattle.std.specs.List.{list_any};
ghost use Rattle.desk_entries.specs.Letters.{letters_of, shown_of};
ghost use Rattle.desk_ledger.specs.Ledgers.{EntriesOnly};
ghost use Rattle.desk_run.specs.Changes.{NotesShown};
ghost use Rattle.desk_run.specs.Ends.{IsCause, IsUndone, Unfailed};
ghost use Rattle.desk_run.specs.Printing.{Prints, TellsMet, met_line};
ghost use Rattle.desk_run.specs.Shown.{Shows, ShowsEach, ShowsLetter, ShowsReading, ShowsText, head_line, is_met, new_letters, no_text, lent};

use crate::moment::moment_text;
use crate::saying::say;
use crate::trouble::Trouble;
use desk_entries::{Entry, Held, Reading};
use desk_ledger::Ledger;
use desk_letters::screen_text;
use express_words::NoMemory;
use express_words::outside::Sink;
use node_journal::Disk;
use std::alloc::Global;

// The line above a letter.
#[tactic(auto, unfolding(crate::specs::Shown::head_line))]
fn head_text(alloc: Global, name: &str, moment: &str) -> Result<String, NoMemory>
    ensures { IfOk result (λ head. string_bytes head ≡ head_line name.now moment.now) }
{
    let mut text = format!(in alloc; "letter from box {name}, read ")?;
    text.push_str(moment)?;
    text.push_str("\n")?;
    Ok(text)
}

#[tactic(auto, unfolding(crate::specs::Shown::text_line))]
fn text_line(alloc: Global, shown: &str) -> Result<String, NoMemory>
    ensures { IfOk result (λ line. string_bytes line ≡ shown.now ++ codes "\n\n") }
{
    let line = format!(in alloc; "{shown}\n\n")?;
    Ok(line)
}

#[tactic(auto, unfolding(crate::specs::Shown::no_text))]
fn no_text(alloc: Global, count: usize) -> Result<String, NoMemory>
    ensures { IfOk result (λ line. string_bytes line ≡ no_text count) }
{
    let line = format!(in alloc;
        "(these {count} bytes are no text: letters --out FOLDER writes them to a file)\n\n"
    )?;
    Ok(line)
}

// What is shown of a letter's text.
#[tactic(auto, unfolding(crate::specs::Shown::text_line))]
fn body_text(alloc: Global, text: &[u8]) -> Result<String, NoMemory>
    ensures { IfOk result (λ body. ShowsText text.now (string_bytes body)) }
{
    match screen_text(alloc, text)? {
        Some(shown) => text_line(alloc, shown.as_str()),
        None => no_text(alloc, text.len()),
    }
}

/// The line that tells of letters that met in a box of this name.
#[tactic(auto, unfolding(crate::specs::Printing::met_line))]
pub(crate) fn met_text(alloc: Global, name: &str) -> Result<String, NoMemory>
    ensures { IfOk result (λ text. string_bytes text ≡ met_line name.now) }
{
    let text = format!(in alloc; "two letters met in box {name}: neither can be read\n")?;
    Ok(text)
}

// The same, with an empty line behind it.
fn met_lines(alloc: Global, name: &str) -> Result<String, NoMemory>
    ensures { IfOk result (λ text. string_bytes text ≡ met_line name.now ++ codes "\n") }
{
    let mut text = met_text(alloc, name)?;
    text.push_str("\n")?;
    Ok(text)
}

// What is shown of a letter from a box of this name.
fn letter_text(alloc: Global, name: &str, seconds: u64, text: &[u8]) -> Result<String, NoMemory>
    ensures { IfOk result (λ whole. ShowsLetter name.now text.now (string_bytes whole)) }
{
    let moment = moment_text(alloc, seconds)?;
    let mut whole = head_text(alloc, name, moment.as_str())?;
    let body = body_text(alloc, text)?;
    whole.push_str(body.as_str())?;
    Ok(whole)
}

// What is shown of what a box held.
fn reading_text(alloc: Global, name: &str, reading: &Reading) -> Result<String, NoMemory>
    ensures { IfOk result (λ text. Shows name.now reading.now.held (string_bytes text)) }
{
    match &reading.held {
        Held::Nothing => Ok(String::new(alloc)),
        Held::Met => met_lines(alloc, name),
        Held::Letter { id: _, text } => {
            letter_text(alloc, name, reading.seconds, text.as_slice())
        }
    }
}

/// Whether letters met in the box that was read.
pub(crate) fn is_met(reading: &Reading) -> bool
    ensures { result ≡ is_met reading.now }
{
    matches!(reading.held, Held::Met)
}

/// Whether one of the two is so.
pub(crate) fn either(one: bool, other: bool) -> bool
    ensures { result ≡ (one || other) }
{
    one || other
}

// Prints what a box held.
fn show_one<'a, D: Disk, K: Sink>(
    alloc: Global,
    ledger: &Ledger<D>,
    reading: &Reading,
    out: &mut K,
) -> Result<(), Trouble<'a>>
    ensures shown { OnOk result (Prints (ShowsReading ledger.now.entries reading.now)
        (K.seen out.old).written (K.seen out.new).written) }
    ensures undone { IfErr result IsUndone }
    ensures sink { Unfailed (K.seen out.old).faults (K.seen out.new).faults result }
{
    let name = ledger.name_of(reading.registered);
    let text = reading_text(alloc, name, reading)?;
    say(out, text.as_str())
}

// Prints these, and says whether letters met in one of their boxes.
fn show_all<'a, D: Disk, K: Sink>(
    alloc: Global,
    ledger: &Ledger<D>,
    readings: &[&Reading],
    out: &mut K,
) -> Result<bool, Trouble<'a>>
    ensures shown { OnOk result (Prints (ShowsEach ledger.now.entries (lent readings.now))
        (K.seen out.old).written (K.seen out.new).written) }
    ensures met { IfOk result (λ met. met ≡ list_any is_met (lent readings.now)) }
    ensures told { IfOk result (λ met. met ≡ true
        → Prints TellsMet (K.seen out.old).written (K.seen out.new).written) }
    ensures undone { IfErr result IsUndone }
    ensures sink { Unfailed (K.seen out.old).faults (K.seen out.new).faults result }
{
    let mut met = false;
    let mut rest = readings;
    'readings: while let [reading, behind @ ..] = rest {
        show_one(alloc, ledger, reading, out)?;
        met = either(met, is_met(reading));
        rest = behind;
    }
    Ok(met)
}

/// What was shown: how many letters there are now, and of the new ones whether there are any and whether letters met.
#[derive(Clone, Copy)]
pub(crate) struct ShownLetters {
    pub(crate) count: usize,
    pub(crate) any: bool,
    pub(crate) met: bool,
}

// Prints the letters that weren't shown.
fn show_those<'a, D: Disk, K: Sink>(
    alloc: Global,
    ledger: &Ledger<D>,
    out: &mut K,
) -> Result<ShownLetters, Trouble<'a>>
    ensures shown { OnOk result (Prints (ShowsEach ledger.now.entries (new_letters ledger.now.entries))
        (K.seen out.old).written (K.seen out.new).written) }
    ensures count { IfOk result (λ shown. shown.count ≡ length (letters_of ledger.now.entries)) }
    ensures none { IfOk result (λ shown. shown.any ≡ false
        → length (letters_of ledger.now.entries) ≤ shown_of ledger.now.entries) }
    ensures some { IfOk result (λ shown. shown.any ≡ true
        → shown_of ledger.now.entries < length (letters_of ledger.now.entries)) }
    ensures met { IfOk result (λ shown. shown.met ≡ list_any is_met (new_letters ledger.now.entries)) }
    ensures told { IfOk result (λ shown. shown.met ≡ true
        → Prints TellsMet (K.seen out.old).written (K.seen out.new).written) }
    ensures undone { IfErr result IsUndone }
    ensures sink { Unfailed (K.seen out.old).faults (K.seen out.new).faults result }
{
    let letters = ledger.letters()?;
    let count = letters.len();
    let from = (ledger.shown() as usize).min(count);
    let met = show_all(alloc, ledger, &letters[from..], out)?;
    Ok(ShownLetters {
        count,
        any: from < count,
        met,
    })
}

/// Prints the letters that weren't shown, and notes then that they were.
#[tactic(auto, using(crate::proofs::ShowLaws::none_new, crate::proofs::ShowLaws::some_new))]
pub(crate) fn show_new<'a, D: Disk, K: Sink>(
    alloc: Global,
    ledger: &mut Ledger<D>,
    out: &mut K,
) -> Result<ShownLetters, Trouble<'a>>
    ensures shown { OnOk result (Prints (ShowsEach ledger.old.entries (new_letters ledger.old.entries))
        (K.seen out.old).written (K.seen out.new).written) }
    ensures none { IfOk result (λ shown. shown.any ≡ false → new_letters ledger.old.entries ≡ []) }
    ensures some { IfOk result (λ shown. shown.any ≡ true → new_letters ledger.old.entries ≢ []) }
    ensures met { IfOk result (λ shown. shown.met ≡ list_any is_met (new_letters ledger.old.entries)) }
    ensures told { IfOk result (λ shown. shown.met ≡ true
        → Prints TellsMet (K.seen out.old).written (K.seen out.new).written) }
    ensures notes { OnOk result (NotesShown ledger.old ledger.new) }
    ensures only { EntriesOnly ledger.old ledger.new }
    // Where they couldn't be printed they weren't noted.
    ensures unshown { result ≡ Err Trouble.Out → ledger.new ≡ ledger.old }
    ensures undone { IfErr result IsUndone }
    ensures sink { Unfailed (K.seen out.old).faults (K.seen out.new).faults result }
{
    let shown = show_those(alloc, ledger, out)?;
    note_new(ledger, shown)?;
    Ok(shown)
}

// Notes new letters as shown, where there are any.
fn note_new<'a, D: Disk>(ledger: &mut Ledger<D>, shown: ShownLetters) -> Result<(), Trouble<'a>>
    requires count { shown.count ≡ length (letters_of ledger.old.entries) }
    requires none { shown.any ≡ false → length (letters_of ledger.old.entries) ≤ shown_of ledger.old.entries }
    ensures notes { OnOk result (NotesShown ledger.old ledger.new) }
    ensures only { EntriesOnly ledger.old ledger.new }
    ensures cause { IfErr result IsCause }
{
    if shown.any {
        note_shown(ledger, shown.count)
    } else {
        Ok(())
    }
}

/// Notes that so many letters were shown.
pub(crate) fn note_shown<'a, D: Disk>(
    ledger: &mut Ledger<D>,
    count: usize,
) -> Result<(), Trouble<'a>>
    ensures noted { OnOk result (shown_of ledger.new.entries ≡ count) }
    ensures added { OnOk result (ledger.new.entries ≡ ledger.old.entries ++ Entry.Shown count ∷ []) }
    ensures only { EntriesOnly ledger.old ledger.new }
    ensures cause { IfErr result IsCause }
{
    match u32::try_from(count) {
        Ok(count) => {
            ledger.mark_shown(count)?;
            Ok(())
        }
        Err(_) => Err(Trouble::Full),
    }
}
