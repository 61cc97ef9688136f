//! Letters that are shown on the screen.
ghost use Rattle.std.specs.Prelude.{◌≡◌, IfErr, IfOk, OnErr, OnOk, map, string_bytes, true};
ghost use Rattle.kept_ledger.specs.declared.entry.Handling.TheVariants.{Shown};
ghost use Rattle.desk_around.specs.Ends.{IsUndone, Unfailed};
ghost use Rattle.desk_around.specs.Printing.{Prints};
ghost use Rattle.desk_lines.specs.Letters.{ShowsLetter, met_line};
ghost use Rattle.owner_mail.specs.News.{marked_by, plain_news, Arrived, Unopened};
ghost use Rattle.owner_mail.specs.Telling.{PrintsFirst, Screen, TellsAll, TellsFirst, TellsItem, TellsMet};
ghost use Rattle.owner_mail.specs.Telling.{TellsNew, TellsSome, state_of};

use crate::gathering::{due_in, mails_in, news_told};
use crate::mail::NamedMail;
use crate::news::News;
use crate::noting::note_told;
use crate::printing::put;
use desk_around::Trouble;
use desk_lines::{letter_text, met_text};
use express_words::NoMemory;
use express_words::outside::Sink;
use kept_ledger::{Handling, KeptLedger};
use kept_machine::Kept;
use node_journal::Disk;
use std::alloc::Global;
use told_letters::Letter;

// What is printed of a letter.
fn text_of(alloc: Global, mail: &NamedMail, letter: &Letter) -> Result<String, NoMemory>
    ensures { IfOk result (λ text. ShowsLetter mail.now.name mail.now.seconds letter.now.text (string_bytes text)) }
{
    letter_text(
        alloc,
        mail.name.as_str(),
        mail.seconds,
        letter.text.as_slice(),
    )
}

// Shows a letter, and notes then that it was shown.
fn show_letter<'a, D: Disk, K: Sink>(
    alloc: Global,
    kept: &mut Kept<KeptLedger, D>,
    mail: &NamedMail,
    letter: &Letter,
    out: &mut K,
) -> Result<(), Trouble<'a>>
    ensures told { OnOk result (Prints (TellsItem Screen (Arrived mail.now letter.now))
        (K.seen out.old).written (K.seen out.new).written) }
    ensures first { OnErr result (PrintsFirst (TellsItem Screen (Arrived mail.now letter.now))
        (K.seen out.old).written (K.seen out.new).written) }
    ensures noted { OnOk result (state_of kept.new ≡ record (state_of kept.old) {
      marks = marked_by Shown (Arrived mail.now letter.now) (state_of kept.old).marks;
    }) }
    ensures same { OnErr result (state_of kept.new ≡ state_of kept.old) }
    ensures undone { IfErr result IsUndone }
    ensures sink { Unfailed (K.seen out.old).faults (K.seen out.new).faults result }
{
    let text = text_of(alloc, mail, letter)?;
    put(out, text.as_str())?;
    note_told(kept, mail, letter, Handling::Shown)
}

/// Tells how many readings of a name nothing opens.
pub(crate) fn say_unopened<'a, K: Sink>(
    alloc: Global,
    mail: &NamedMail,
    out: &mut K,
) -> Result<(), Trouble<'a>>
    ensures told { OnOk result (Prints (λ text. text ≡ met_line mail.now.name mail.now.unopened)
        (K.seen out.old).written (K.seen out.new).written) }
    ensures first { OnErr result (PrintsFirst (λ text. text ≡ met_line mail.now.name mail.now.unopened)
        (K.seen out.old).written (K.seen out.new).written) }
    ensures undone { IfErr result IsUndone }
    ensures sink { Unfailed (K.seen out.old).faults (K.seen out.new).faults result }
{
    let text = met_text(alloc, mail.name.as_str(), mail.unopened)?;
    put(out, text.as_str())
}

fn show_one<'a, D: Disk, K: Sink>(
    alloc: Global,
    kept: &mut Kept<KeptLedger, D>,
    one: &News<'_>,
    out: &mut K,
) -> Result<(), Trouble<'a>>
    ensures told { OnOk result (Prints (TellsItem Screen (plain_news one.now))
        (K.seen out.old).written (K.seen out.new).written) }
    ensures first { OnErr result (PrintsFirst (TellsItem Screen (plain_news one.now))
        (K.seen out.old).written (K.seen out.new).written) }
    ensures noted { OnOk result (state_of kept.new ≡ record (state_of kept.old) {
      marks = marked_by Shown (plain_news one.now) (state_of kept.old).marks;
    }) }
    ensures same { OnErr result (state_of kept.new ≡ state_of kept.old) }
    ensures undone { IfErr result IsUndone }
    ensures sink { Unfailed (K.seen out.old).faults (K.seen out.new).faults result }
{
    match *one {
        News::Letter(mail, letter) => show_letter(alloc, kept, mail, letter, out),
        News::Unopened(mail) => say_unopened(alloc, mail, out),
    }
}

fn show_all<'a, D: Disk, K: Sink>(
    alloc: Global,
    kept: &mut Kept<KeptLedger, D>,
    news: &[News<'_>],
    out: &mut K,
) -> Result<(), Trouble<'a>>
    ensures told { OnOk result (TellsAll Screen (map plain_news news.now) (state_of kept.old)
        (state_of kept.new) (K.seen out.old).written (K.seen out.new).written) }
    ensures first { OnErr result (TellsSome Screen (map plain_news news.now) (state_of kept.old)
        (state_of kept.new) (K.seen out.old).written (K.seen out.new).written) }
    ensures undone { IfErr result IsUndone }
    ensures sink { Unfailed (K.seen out.old).faults (K.seen out.new).faults result }
{
    for one in news.iter() {
        show_one(alloc, kept, one, out)?;
    }
    Ok(())
}

/// What was told.
#[derive(Clone, Copy, Debug, PartialEq, Eq)]
pub struct NewsTold {
    /// Whether anything was: a letter, or that letters met.
    pub any: bool,
    /// Whether letters met: some readings are opened by nothing.
    pub met: bool,
}

/// Shows the letters that were neither shown nor written out, name by name, and notes each behind its text.
/// Behind the letters of a name stands how many of its readings nothing opens, each time.
pub fn show_new<'a, D: Disk, K: Sink>(
    alloc: Global,
    kept: &mut Kept<KeptLedger, D>,
    out: &mut K,
) -> Result<NewsTold, Trouble<'a>>
    ensures told { IfOk result (λ told. TellsNew Screen told (state_of kept.old) (state_of kept.new)
        (K.seen out.old).written (K.seen out.new).written) }
    ensures met { IfOk result (λ told. told.met ≡ true
        → Prints TellsMet (K.seen out.old).written (K.seen out.new).written) }
    ensures first { OnErr result (TellsFirst Screen (state_of kept.old) (state_of kept.new)
        (K.seen out.old).written (K.seen out.new).written) }
    ensures undone { IfErr result IsUndone }
    ensures sink { Unfailed (K.seen out.old).faults (K.seen out.new).faults result }
{
    let mails = mails_in(alloc, kept)?;
    let all = mails.as_slice();
    let news = due_in(alloc, kept, all, Handling::Shown)?;
    let shown = news.as_slice();
    show_all(alloc, kept, shown, out)?;
    Ok(news_told(shown, all))
}
