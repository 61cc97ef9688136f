//! How a desk stands.
ghost use Rattle.std.specs.Prelude.{◌≡◌, IfErr, IfOk, OnOk, map, string_bytes};
ghost use Rattle.express_words.specs.Streams.{Took};
ghost use Rattle.desk_around.specs.Ends.{IsUndone, Unfailed};
ghost use Rattle.desk_around.specs.Printing.{Prints};
ghost use Rattle.desk_lines.specs.Boxes.{pair_line};
ghost use Rattle.owner_mail.specs.Status.{IsDone, TellsStatus, TellsWork, boxes_lines, closed_part, count_that};
ghost use Rattle.owner_mail.specs.Status.{count_waiting, counts_of, line_of, work_text};

use crate::counts::{count_new, letters_in};
use crate::mail::mails_of;
use desk_around::{Trouble, say};
use desk_lines::{
    BoxCounts, closed_text, counts_text, full_text, letters_text, pair_text, work_words,
};
use express_words::NoMemory;
use express_words::outside::Sink;
use kept_ledger::{Ledger, NamedBoxes, Standing};
use std::alloc::Global;

fn count_that(
    alloc: Global,
    ledger: &Ledger,
    name: &str,
    standing: Standing,
) -> Result<usize, NoMemory>
    ensures { IfOk result (λ count. count ≡ count_that ledger.now.state name.now standing) }
{
    let found = ledger.addresses_that(alloc, name, standing)?;
    Ok(found.len())
}

// How many boxes are to be made yet: none of a name that is to be retired.
fn count_waiting(alloc: Global, ledger: &Ledger, named: &NamedBoxes) -> Result<usize, NoMemory>
    ensures { IfOk result (λ count. count ≡ count_waiting ledger.now.state named.now) }
{
    if named.is_retiring {
        return Ok(0);
    }
    count_that(alloc, ledger, named.name.as_str(), Standing::Waiting)
}

fn counts_of(alloc: Global, ledger: &Ledger, named: &NamedBoxes) -> Result<BoxCounts, NoMemory>
    ensures { IfOk result (λ counts. counts ≡ counts_of ledger.now.state named.now) }
{
    let live = count_that(alloc, ledger, named.name.as_str(), Standing::Live)?;
    let waiting = count_waiting(alloc, ledger, named)?;
    let retired = count_that(alloc, ledger, named.name.as_str(), Standing::Retired)?;
    Ok(BoxCounts {
        live,
        waiting,
        retired,
    })
}

// Since when the boxes of a name are closed, if they are and aren't to be retired.
fn closed_part(alloc: Global, named: &NamedBoxes) -> Result<String, NoMemory>
    ensures { IfOk result (λ text. string_bytes text
        ≡ closed_part named.now.name named.now.is_retiring named.now.closed) }
{
    if named.is_retiring {
        return Ok(String::new(alloc));
    }
    match named.closed {
        Some(day) => closed_text(alloc, named.name.as_str(), &day),
        None => Ok(String::new(alloc)),
    }
}

// What is told of the boxes of a name.
fn line_of(alloc: Global, ledger: &Ledger, named: &NamedBoxes) -> Result<String, NoMemory>
    ensures { IfOk result (λ text. string_bytes text ≡ line_of ledger.now.state named.now) }
{
    let counts = counts_of(alloc, ledger, named)?;
    let mut text = counts_text(alloc, named.name.as_str(), &counts)?;
    let closed = closed_part(alloc, named)?;
    text.push_str(closed.as_str())?;
    Ok(text)
}

fn say_name<'a, K: Sink>(
    alloc: Global,
    ledger: &Ledger,
    named: &NamedBoxes,
    out: &mut K,
) -> Result<(), Trouble<'a>>
    ensures said { OnOk result (Took (K.seen out.old).written (K.seen out.new).written
        (line_of ledger.now.state named.now)) }
    ensures undone { IfErr result IsUndone }
    ensures sink { Unfailed (K.seen out.old).faults (K.seen out.new).faults result }
{
    let text = line_of(alloc, ledger, named)?;
    say(out, text.as_str())
}

fn say_boxes<'a, K: Sink>(alloc: Global, ledger: &Ledger, out: &mut K) -> Result<(), Trouble<'a>>
    ensures said { OnOk result (Took (K.seen out.old).written (K.seen out.new).written
        (boxes_lines ledger.now.state)) }
    ensures undone { IfErr result IsUndone }
    ensures sink { Unfailed (K.seen out.old).faults (K.seen out.new).faults result }
{
    let names = ledger.named();
    for named in names.iter() {
        say_name(alloc, ledger, named, out)?;
    }
    Ok(())
}

// Whether nothing is under way, and nothing is left to be done.
fn is_done(ledger: &Ledger) -> bool
    ensures { IsDone ledger.now.state result }
{
    ledger.is_idle() && ledger.next_task().is_none()
}

fn figures_text(
    alloc: Global,
    is_done: bool,
    letters: usize,
    new: usize,
    full: u64,
) -> Result<String, NoMemory>
    ensures { IfOk result (λ text. string_bytes text ≡ work_text is_done letters new full) }
{
    let mut text = String::from_str(alloc, work_words(is_done))?;
    let letters = letters_text(alloc, letters, new)?;
    text.push_str(letters.as_str())?;
    let full = full_text(alloc, full)?;
    text.push_str(full.as_str())?;
    Ok(text)
}

// Whether something is under way, how many letters there are and how many are new, and how full the desk is.
fn text_of_work(alloc: Global, ledger: &Ledger, full: u64) -> Result<String, NoMemory>
    ensures { IfOk result (λ text. TellsWork ledger.now.state full (string_bytes text)) }
{
    let mails = mails_of(alloc, ledger)?;
    let letters = letters_in(alloc, mails.as_slice())?;
    let new = count_new(ledger, letters.as_slice());
    figures_text(alloc, is_done(ledger), letters.len(), new, full)
}

fn say_pair<'a, K: Sink>(alloc: Global, ledger: &Ledger, out: &mut K) -> Result<(), Trouble<'a>>
    ensures said { OnOk result (Took (K.seen out.old).written (K.seen out.new).written
        (pair_line ledger.now.state.pair.leader.place ledger.now.state.pair.helper.place)) }
    ensures undone { IfErr result IsUndone }
    ensures sink { Unfailed (K.seen out.old).faults (K.seen out.new).faults result }
{
    let pair = ledger.pair();
    let text = pair_text(
        alloc,
        pair.leader.place.as_str(),
        pair.helper.place.as_str(),
    )?;
    say(out, text.as_str())
}

/// Tells how a desk stands: its servers; of each name how many boxes it has, and since when they are closed;
/// whether something is under way; how many letters there are, and how many weren't told yet; and how many
/// hundredths of its room are full, which the caller gives.
pub fn say_status<'a, K: Sink>(
    alloc: Global,
    ledger: &Ledger,
    full: u64,
    out: &mut K,
) -> Result<(), Trouble<'a>>
    ensures told { OnOk result (Prints (TellsStatus ledger.now.state full)
        (K.seen out.old).written (K.seen out.new).written) }
    ensures undone { IfErr result IsUndone }
    ensures sink { Unfailed (K.seen out.old).faults (K.seen out.new).faults result }
{
    say_pair(alloc, ledger, out)?;
    say_boxes(alloc, ledger, out)?;
    let work = text_of_work(alloc, ledger, full)?;
    say(out, work.as_str())
}
