//! Cards.
ghost use Rattle.std.specs.Prelude.{◌≡◌, ◌≢◌, ◌⊎◌, [], Err, IfErr, OnOk, Ok};
ghost use Rattle.desk_texts.specs.Printing.{printed};
ghost use Rattle.express_words.specs.Streams.{Took};
ghost use Rattle.desk_ledger.specs.Cards.{card_addresses};
ghost use Rattle.desk_run.specs.Printing.{Prints};
ghost use Rattle.desk_run.specs.Shown.{IsCardFor};
ghost use Rattle.desk_run.specs.Ends.{IsUndone, Unfailed};
ghost use Rattle.desk_run.specs.Words.{ShowsCard};
ghost use Rattle.desk_run.specs.FolderSteps.{FolderStepsOn};

use crate::ending::WordEnd;
use crate::ledgers::desk_in;
use crate::saying::say_bytes;
use crate::trouble::Trouble;
use desk_ledger::Ledger;
use desk_outside::Folder;
use desk_texts::{Sheet, print};
use express_words::outside::Sink;
use node_journal::Disk;
use std::alloc::Global;

// Prints a card.
fn say_card<'a, K: Sink>(alloc: Global, card: &Sheet, out: &mut K) -> Result<(), Trouble<'a>>
    ensures said { OnOk result (Took (K.seen out.old).written (K.seen out.new).written (printed card.now)) }
    ensures failed { IfErr result (λ t. (t ≡ Trouble.Out) ⊎ (t ≡ Trouble.NoMemory)) }
    ensures sink { Unfailed (K.seen out.old).faults (K.seen out.new).faults result }
{
    match print(alloc, card) {
        Ok(text) => say_bytes(out, &text),
        Err(_) => Err(Trouble::NoMemory),
    }
}

/// Prints the card of a name.
#[tactic(auto, using(crate::proofs::CardSheets::prints_card))]
pub(crate) fn show_card<'a, D: Disk, K: Sink>(
    alloc: Global,
    ledger: &Ledger<D>,
    name: &'a str,
    out: &mut K,
) -> Result<(), Trouble<'a>>
    ensures card { OnOk result (Prints (IsCardFor ledger.now name.entry.now)
        (K.seen out.old).written (K.seen out.new).written) }
    ensures none { result ≡ Err (Trouble.NoName name.entry)
        → card_addresses ledger.now.entries name.entry.now ≡ [] }
    ensures undone { IfErr result IsUndone }
    ensures sink { Unfailed (K.seen out.old).faults (K.seen out.new).faults result }
{
    match ledger.card(name) {
        Ok(Some(card)) => say_card(alloc, &card, out),
        Ok(None) => Err(Trouble::NoName(name)),
        Err(_) => Err(Trouble::NoMemory),
    }
}

/// The word `card`.
pub(crate) fn card<'a, F: Folder, K: Sink>(
    alloc: Global,
    name: &'a str,
    folder: &mut F,
    out: &mut K,
) -> Result<WordEnd, Trouble<'a>>
    ensures done { OnOk result (ShowsCard F.File.disk name.entry.now (F.calls folder.old) (F.calls folder.new)
        (K.seen out.old).written (K.seen out.new).written) }
    ensures undone { IfErr result IsUndone }
    ensures not_met { result ≢ Ok WordEnd.Met }
    ensures sink { Unfailed (K.seen out.old).faults (K.seen out.new).faults result }
    ensures steps { FolderStepsOn F.File.disk F.File.Counted.seen (F.calls folder.old) (F.calls folder.new) }
{
    let ledger = desk_in(alloc, folder)?;
    let shown = show_card(alloc, &ledger, name, out);
    drop(ledger);
    shown?;
    Ok(WordEnd::Done)
}
