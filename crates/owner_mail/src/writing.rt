//! Letters that are written into files.
ghost use Rattle.std.specs.Prelude.{◌≡◌, IfErr, IfOk, OnErr, OnOk, map, string_bytes, true};
ghost use Rattle.kept_ledger.specs.declared.entry.Handling.TheVariants.{Written};
ghost use Rattle.kept_ledger.specs.Tags.{tag_of};
ghost use Rattle.desk_around.specs.Ends.{IsUndone, Unfailed};
ghost use Rattle.desk_around.specs.Printing.{Prints};
ghost use Rattle.owner_mail.specs.News.{Arrived, marked_by, plain_news};
ghost use Rattle.owner_mail.specs.Telling.{Files, PrintsFirst, TellsAll, TellsFirst, TellsItem, TellsMet};
ghost use Rattle.owner_mail.specs.Telling.{TellsNew, TellsSome, state_of};
ghost use Rattle.owner_mail.specs.Targets.{file_mark, files_of};

use crate::gathering::{due_in, mails_in, news_told};
use crate::mail::NamedMail;
use crate::news::News;
use crate::noting::note_told;
use crate::printing::put;
use crate::showing::{NewsTold, say_unopened};
use desk_around::Trouble;
use desk_lines::{FileMark, file_name, file_text};
use desk_outside::Papers;
use express_words::NoMemory;
use express_words::outside::Sink;
use kept_ledger::{Handling, KeptLedger};
use kept_machine::Kept;
use node_journal::Disk;
use std::alloc::Global;
use told_letters::Letter;

/// Where letters go, and by what the desk's are told from another desk's.
#[derive(Clone, Copy)]
pub(crate) struct Target<'a> {
    folder: &'a str,
    tag: u32,
}

fn file_mark(letter: &Letter, tag: u32) -> FileMark
    ensures { result ≡ file_mark letter.now tag }
{
    FileMark {
        id: letter.heading.letter.0,
        parts: letter.heading.parts,
        tag,
    }
}

// Writes a letter into its file.
fn write_file<'a, P: Papers>(
    alloc: Global,
    target: &Target<'a>,
    mail: &NamedMail,
    letter: &Letter,
    papers: &mut P,
) -> Result<(), Trouble<'a>>
    ensures undone { IfErr result IsUndone }
    ensures papers { Unfailed (P.seen papers.old).faults (P.seen papers.new).faults result }
{
    let mark = file_mark(letter, target.tag);
    let file = file_name(alloc, mail.name.as_str(), &mark)?;
    match papers.write(target.folder, file.as_str(), letter.text.as_slice()) {
        Ok(_) => Ok(()),
        Err(_) => Err(Trouble::Unwritten(target.folder)),
    }
}

// What is told of a letter that is in its file.
fn text_of(
    alloc: Global,
    target: &Target<'_>,
    mail: &NamedMail,
    letter: &Letter,
) -> Result<String, NoMemory>
    ensures { IfOk result (λ text. TellsItem (files_of target.now) (Arrived mail.now letter.now)
        (string_bytes text)) }
{
    let mark = file_mark(letter, target.tag);
    file_text(
        alloc,
        target.folder,
        mail.name.as_str(),
        mail.seconds,
        &mark,
    )
}

// Tells of a letter that is in its file, and notes then that it was written.
fn tell_file<'a, D: Disk, K: Sink>(
    alloc: Global,
    kept: &mut Kept<KeptLedger, D>,
    target: &Target<'a>,
    mail: &NamedMail,
    letter: &Letter,
    out: &mut K,
) -> Result<(), Trouble<'a>>
    ensures told { OnOk result (Prints (TellsItem (files_of target.now) (Arrived mail.now letter.now))
        (K.seen out.old).written (K.seen out.new).written) }
    ensures first { OnErr result (PrintsFirst (TellsItem (files_of target.now) (Arrived mail.now letter.now))
        (K.seen out.old).written (K.seen out.new).written) }
    ensures noted { OnOk result (state_of kept.new ≡ record (state_of kept.old) {
      marks = marked_by Written (Arrived mail.now letter.now) (state_of kept.old).marks;
    }) }
    ensures same { OnErr result (state_of kept.new ≡ state_of kept.old) }
    ensures undone { IfErr result IsUndone }
    ensures sink { Unfailed (K.seen out.old).faults (K.seen out.new).faults result }
{
    let text = text_of(alloc, target, mail, letter)?;
    put(out, text.as_str())?;
    note_told(kept, mail, letter, Handling::Written)
}

// Writes a letter into its file, and tells of it then. Or tells of readings that nothing opens.
fn write_one<'a, D: Disk, P: Papers, K: Sink>(
    alloc: Global,
    kept: &mut Kept<KeptLedger, D>,
    target: &Target<'a>,
    one: &News<'_>,
    papers: &mut P,
    out: &mut K,
) -> Result<(), Trouble<'a>>
    ensures told { OnOk result (Prints (TellsItem (files_of target.now) (plain_news one.now))
        (K.seen out.old).written (K.seen out.new).written) }
    ensures first { OnErr result (PrintsFirst (TellsItem (files_of target.now) (plain_news one.now))
        (K.seen out.old).written (K.seen out.new).written) }
    ensures noted { OnOk result (state_of kept.new ≡ record (state_of kept.old) {
      marks = marked_by Written (plain_news one.now) (state_of kept.old).marks;
    }) }
    ensures same { OnErr result (state_of kept.new ≡ state_of kept.old) }
    ensures undone { IfErr result IsUndone }
    ensures sink { Unfailed (K.seen out.old).faults (K.seen out.new).faults result }
    ensures papers { Unfailed (P.seen papers.old).faults (P.seen papers.new).faults result }
{
    match *one {
        News::Letter(mail, letter) => {
            write_file(alloc, target, mail, letter, papers)?;
            tell_file(alloc, kept, target, mail, letter, out)
        }
        News::Unopened(mail) => say_unopened(alloc, mail, out),
    }
}

fn write_all<'a, D: Disk, P: Papers, K: Sink>(
    alloc: Global,
    kept: &mut Kept<KeptLedger, D>,
    target: &Target<'a>,
    news: &[News<'_>],
    papers: &mut P,
    out: &mut K,
) -> Result<(), Trouble<'a>>
    ensures told { OnOk result (TellsAll (files_of target.now) (map plain_news news.now) (state_of kept.old)
        (state_of kept.new) (K.seen out.old).written (K.seen out.new).written) }
    ensures first { OnErr result (TellsSome (files_of target.now) (map plain_news news.now) (state_of kept.old)
        (state_of kept.new) (K.seen out.old).written (K.seen out.new).written) }
    ensures undone { IfErr result IsUndone }
    ensures sink { Unfailed (K.seen out.old).faults (K.seen out.new).faults result }
    ensures papers { Unfailed (P.seen papers.old).faults (P.seen papers.new).faults result }
{
    for one in news.iter() {
        write_one(alloc, kept, target, one, papers, out)?;
    }
    Ok(())
}

// Where the letters of this desk go.
fn target_of<'a, D: Disk>(kept: &Kept<KeptLedger, D>, folder: &'a str) -> Target<'a>
    ensures { files_of result ≡ Files folder.entry.now (tag_of (state_of kept.now).seed) }
{
    Target {
        folder,
        tag: kept.machine().ledger().tag(),
    }
}

fn write_news<'a, D: Disk, P: Papers, K: Sink>(
    alloc: Global,
    kept: &mut Kept<KeptLedger, D>,
    target: &Target<'a>,
    papers: &mut P,
    out: &mut K,
) -> Result<NewsTold, Trouble<'a>>
    ensures told { IfOk result (λ told. TellsNew (files_of target.now) told
        (state_of kept.old) (state_of kept.new) (K.seen out.old).written (K.seen out.new).written) }
    ensures met { IfOk result (λ told. told.met ≡ true
        → Prints TellsMet (K.seen out.old).written (K.seen out.new).written) }
    ensures first { OnErr result (TellsFirst (files_of target.now)
        (state_of kept.old) (state_of kept.new) (K.seen out.old).written (K.seen out.new).written) }
    ensures undone { IfErr result IsUndone }
    ensures sink { Unfailed (K.seen out.old).faults (K.seen out.new).faults result }
    ensures papers { Unfailed (P.seen papers.old).faults (P.seen papers.new).faults result }
{
    let mails = mails_in(alloc, kept)?;
    let all = mails.as_slice();
    let news = due_in(alloc, kept, all, Handling::Written)?;
    let shown = news.as_slice();
    write_all(alloc, kept, target, shown, papers, out)?;
    Ok(news_told(shown, all))
}

/// Writes the letters that weren't written before into files of a folder, name by name, those too that were
/// shown. Behind each file a line tells where it lies, and behind that the letter is noted as written. Behind
/// the letters of a name stands how many of its readings nothing opens, each time.
pub fn write_new<'a, D: Disk, P: Papers, K: Sink>(
    alloc: Global,
    kept: &mut Kept<KeptLedger, D>,
    folder: &'a str,
    papers: &mut P,
    out: &mut K,
) -> Result<NewsTold, Trouble<'a>>
    ensures told { IfOk result (λ told. TellsNew (Files folder.entry.now (tag_of (state_of kept.old).seed)) told
        (state_of kept.old) (state_of kept.new) (K.seen out.old).written (K.seen out.new).written) }
    ensures met { IfOk result (λ told. told.met ≡ true
        → Prints TellsMet (K.seen out.old).written (K.seen out.new).written) }
    ensures first { OnErr result (TellsFirst (Files folder.entry.now (tag_of (state_of kept.old).seed))
        (state_of kept.old) (state_of kept.new) (K.seen out.old).written (K.seen out.new).written) }
    ensures undone { IfErr result IsUndone }
    ensures sink { Unfailed (K.seen out.old).faults (K.seen out.new).faults result }
    ensures papers { Unfailed (P.seen papers.old).faults (P.seen papers.new).faults result }
{
    let target = target_of(kept, folder);
    write_news(alloc, kept, &target, papers, out)
}
