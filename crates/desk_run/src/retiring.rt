//! The word `retire`.
ghost use Rattle.std.specs.Prelude.{◌≡◌, IfErr, IfOk, Ok, false, string_bytes};
ghost use Rattle.desk_run.specs.Carried.{OnceResumed};
ghost use Rattle.desk_run.specs.Changes.{retired_line};
ghost use Rattle.desk_run.specs.Scenes.{Between, scene};
ghost use Rattle.desk_run.specs.Words.{GivesUp, RetiresBoxes};
ghost use Rattle.desk_run.specs.Ends.{IsUndone, Unfailed};
ghost use Rattle.desk_run.specs.Sends.{SendsOn};
ghost use Rattle.desk_run.specs.Printing.{Prints, TellsMet};
ghost use Rattle.desk_run.specs.FolderSteps.{FolderStepsOn};

use crate::around::Around;
use crate::carrying::carry_on;
use crate::closing::close;
use crate::ending::{WordEnd, end_by};
use crate::ledgers::check_room;
use crate::resuming::desk_resumed;
use crate::saying::say;
use crate::showing::show_new;
use crate::trouble::Trouble;
use desk_ledger::Ledger;
use desk_outside::{Clock, Folder, Papers};
use express_words::NoMemory;
use express_words::outside::{Net, Sink, Source};
use std::alloc::Global;

#[tactic(auto, unfolding(crate::specs::Changes::retired_line))]
fn retired_text(alloc: Global, name: &str) -> Result<String, NoMemory>
    ensures { IfOk result (λ text. string_bytes text ≡ retired_line name.now) }
{
    let text = format!(in alloc;
        "the boxes of {name} are retired: its cards are of no use any more\n"
    )?;
    Ok(text)
}

// Reads the boxes of a name at a desk that was resumed, retires them, and shows the letters that came.
fn retire_and_show<'a, S: Source, K: Sink, N: Net, F: Folder, P: Papers, C: Clock>(
    alloc: Global,
    name: &'a str,
    ledger: &mut Ledger<F::File>,
    around: &mut Around<S, K, N, F, P, C>,
) -> Result<WordEnd, Trouble<'a>>
    ensures done { IfOk result (λ end. OnceResumed F.File.disk ledger.old
        (scene K.seen N.seen F.calls around.old) (λ old. RetiresBoxes F.File.disk name.entry.now end old
        (scene K.seen N.seen F.calls around.new))) }
    ensures undone { IfErr result IsUndone }
    ensures met { result ≡ Ok WordEnd.Met
        → Prints TellsMet (K.seen around.old.out).written (K.seen around.new.out).written }
    ensures sink { Unfailed (K.seen around.old.out).faults (K.seen around.new.out).faults result }
    ensures net { Unfailed (N.seen around.old.net).faults (N.seen around.new.net).faults result }
    ensures sends { SendsOn F.File.disk F.File.Counted.seen
        (N.seen around.old.net).calls (N.seen around.new.net).calls }
    ensures steps { FolderStepsOn F.File.disk F.File.Counted.seen
        (F.calls around.old.folder) (F.calls around.new.folder) }
{
    check_room(ledger)?;
    if !ledger.retire_name(name)? {
        return Err(Trouble::NoName(name));
    }
    let done = carry_on(ledger, &mut around.net, &mut around.clock);
    let shown = show_new(alloc, ledger, &mut around.out)?;
    done?;
    let text = retired_text(alloc, name)?;
    say(&mut around.out, text.as_str())?;
    Ok(end_by(shown.met))
}

// Reads the boxes of a name for the last time, retires them, and shows the letters that came.
fn retire<'a, S: Source, K: Sink, N: Net, F: Folder, P: Papers, C: Clock>(
    alloc: Global,
    name: &'a str,
    around: &mut Around<S, K, N, F, P, C>,
) -> Result<WordEnd, Trouble<'a>>
    ensures done { IfOk result (Between K.seen N.seen F.calls around.old around.new
        (RetiresBoxes F.File.disk name.entry.now)) }
    ensures undone { IfErr result IsUndone }
    ensures met { result ≡ Ok WordEnd.Met
        → Prints TellsMet (K.seen around.old.out).written (K.seen around.new.out).written }
    ensures sink { Unfailed (K.seen around.old.out).faults (K.seen around.new.out).faults result }
    ensures net { Unfailed (N.seen around.old.net).faults (N.seen around.new.net).faults result }
    ensures sends { SendsOn F.File.disk F.File.Counted.seen
        (N.seen around.old.net).calls (N.seen around.new.net).calls }
    ensures steps { FolderStepsOn F.File.disk F.File.Counted.seen
        (F.calls around.old.folder) (F.calls around.new.folder) }
{
    let mut ledger = desk_resumed(alloc, around)?;
    let end = retire_and_show(alloc, name, &mut ledger, around);
    drop(ledger);
    end
}

/// The word `retire`: with `--now` it reads the boxes of a name for the last time, and gives them up; without it they are
/// closed.
pub(crate) fn give_up<'a, S: Source, K: Sink, N: Net, F: Folder, P: Papers, C: Clock>(
    alloc: Global,
    name: &'a str,
    now: bool,
    around: &mut Around<S, K, N, F, P, C>,
) -> Result<WordEnd, Trouble<'a>>
    ensures done { IfOk result (Between K.seen N.seen F.calls around.old around.new
        (GivesUp F.File.disk name.entry.now now)) }
    ensures undone { IfErr result IsUndone }
    ensures met { result ≡ Ok WordEnd.Met
        → Prints TellsMet (K.seen around.old.out).written (K.seen around.new.out).written }
    ensures sink { Unfailed (K.seen around.old.out).faults (K.seen around.new.out).faults result }
    ensures net { Unfailed (N.seen around.old.net).faults (N.seen around.new.net).faults result }
    ensures sends { SendsOn F.File.disk F.File.Counted.seen
        (N.seen around.old.net).calls (N.seen around.new.net).calls }
    ensures quiet { now ≡ false → around.new.net ≡ around.old.net }
    ensures steps { FolderStepsOn F.File.disk F.File.Counted.seen
        (F.calls around.old.folder) (F.calls around.new.folder) }
{
    if now {
        retire(alloc, name, around)
    } else {
        close(alloc, name, around)
    }
}
