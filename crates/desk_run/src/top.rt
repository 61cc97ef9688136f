//! The top call.
ghost use Rattle.std.specs.Prelude.{◌≡◌, ◌≢◌, ◌⊎◌, ◌∷◌, [], Contains, IfErr, IfOk, OnOk, Ok, Some, true};
ghost use Rattle.desk_outside.specs.Calls.{Adds, Held};
ghost use Rattle.desk_words.specs.CommandLine.{AskSome, words_in};
ghost use Rattle.desk_run.specs.Ends.{IsUndone, Unfailed, status_by, status_of};
ghost use Rattle.desk_run.specs.Sends.{Sends, SendsOn};
ghost use Rattle.desk_run.specs.Printing.{Prints, TellsMet};
ghost use Rattle.desk_run.specs.Quiet.{AskServers, is_quiet};
ghost use Rattle.desk_run.specs.Rests.{IsAtHome};
ghost use Rattle.desk_run.specs.Scenes.{Between};
ghost use Rattle.desk_run.specs.Statuses.{EndsAsAsked, IsInUse, MayEnd};
ghost use Rattle.desk_run.specs.Words.{Does, DoesAlone, DoesWord, DoneBy, DoneIfAsked};
ghost use Rattle.desk_run.specs.FolderSteps.{FolderSteps, FolderStepsOn};

use crate::adopting::adopt;
use crate::around::Around;
use crate::boxes::{Wanted, open_boxes};
use crate::cards::card;
use crate::discarding::discard;
use crate::ending::{WordEnd, status_of};
use crate::forgetting::forget;
use crate::holding::{clear_all, hold};
use crate::letters::letters;
use crate::opening::open;
use crate::resuming::resume;
use crate::retiring::give_up;
use crate::saying::{say, tell};
use crate::sending::send;
use crate::standing::status;
use crate::trouble::Trouble;
use desk_draws::Draws;
use desk_outside::{Clock, Folder, Hold, Papers};
use desk_words::{Asked, DeskTask, HELP, asked_of};
use express_words::outside::{Net, Sink, Source};
use std::alloc::Global;

/// What is told of wrong words.
const USAGE: &str = "these are no words of express-desk; express-desk --help shows them\n";

// The word `help`.
fn help<'a, K: Sink>(out: &mut K) -> Result<WordEnd, Trouble<'a>>
    ensures undone { IfErr result IsUndone }
    ensures not_met { result ≢ Ok WordEnd.Met }
    ensures sink { Unfailed (K.seen out.old).faults (K.seen out.new).faults result }
{
    say(out, HELP)?;
    Ok(WordEnd::Done)
}

// What the task comes to, where the folder is this process's alone.
fn in_folder<'a, S: Source, K: Sink, N: Net, F: Folder, P: Papers, C: Clock>(
    alloc: Global,
    task: DeskTask<'a>,
    draws: &mut Draws,
    around: &mut Around<S, K, N, F, P, C>,
) -> Result<WordEnd, Trouble<'a>>
    ensures ends { MayEnd task.entry (status_of result) }
    ensures done { IfOk result (Between K.seen N.seen F.calls around.old around.new
        (Does F.File.disk F.File.Counted.seen task.entry)) }
    ensures met { result ≡ Ok WordEnd.Met
        → Prints TellsMet (K.seen around.old.out).written (K.seen around.new.out).written }
    ensures sink { Unfailed (K.seen around.old.out).faults (K.seen around.new.out).faults result }
    ensures net { Unfailed (N.seen around.old.net).faults (N.seen around.new.net).faults result }
    ensures sends { SendsOn F.File.disk F.File.Counted.seen
        (N.seen around.old.net).calls (N.seen around.new.net).calls }
    ensures quiet { is_quiet task.entry ≡ true → around.new.net ≡ around.old.net }
    ensures steps { FolderStepsOn F.File.disk F.File.Counted.seen
        (F.calls around.old.folder) (F.calls around.new.folder) }
{
    match task {
        DeskTask::Open { pair } => open(alloc, pair, draws, around),
        DeskTask::Box { name, count, until } => {
            open_boxes(alloc, Wanted { name, count, until }, draws, around)
        }
        DeskTask::Card { name } => card(alloc, name, &mut around.folder, &mut around.out),
        DeskTask::Letters { out } => letters(alloc, out, around),
        DeskTask::Send { card, file } => send(alloc, card, file, draws, around),
        DeskTask::Resume => resume(alloc, draws, around),
        DeskTask::Retire { name, now } => give_up(alloc, name, now, around),
        DeskTask::Discard { number } => {
            discard(alloc, number, &mut around.folder, &mut around.out)
        }
        DeskTask::Adopt => adopt(alloc, draws, around),
        DeskTask::Forget => forget(alloc, around),
        DeskTask::Status => status(alloc, &mut around.folder, &mut around.out),
        DeskTask::Help => help(&mut around.out),
    }
}

// What a task comes to that needs the folder.
#[tactic(auto, using(crate::proofs::StatusLaws::may_undone))]
fn with_folder<'a, S: Source, K: Sink, N: Net, F: Folder, P: Papers, C: Clock>(
    alloc: Global,
    asked: Asked<'a>,
    seed: &[u8; 32],
    around: &mut Around<S, K, N, F, P, C>,
) -> Result<WordEnd, Trouble<'a>>
    ensures ends { MayEnd asked.entry.task (status_of result) ⊎ (status_of result ≡ 4) }
    ensures in_use { status_of result ≡ 4 → IsAtHome around.old around.new }
    ensures held { status_of result ≡ 4
        → Adds (F.calls around.old.folder) (F.calls around.new.folder) (Held (Some Hold.InUse)) }
    ensures done { IfOk result (Between K.seen N.seen F.calls around.old around.new
        (DoesAlone F.File.disk F.File.Counted.seen asked.entry.task)) }
    ensures met { result ≡ Ok WordEnd.Met
        → Prints TellsMet (K.seen around.old.out).written (K.seen around.new.out).written }
    ensures sink { Unfailed (K.seen around.old.out).faults (K.seen around.new.out).faults result }
    ensures net { Unfailed (N.seen around.old.net).faults (N.seen around.new.net).faults result }
    ensures sends { SendsOn F.File.disk F.File.Counted.seen
        (N.seen around.old.net).calls (N.seen around.new.net).calls }
    ensures quiet { is_quiet asked.entry.task ≡ true → around.new.net ≡ around.old.net }
    ensures steps { FolderStepsOn F.File.disk F.File.Counted.seen
        (F.calls around.old.folder) (F.calls around.new.folder) }
{
    hold(&asked, &mut around.folder)?;
    clear_all(&mut around.folder)?;
    let mut draws = Draws::from_seed(seed);
    in_folder(alloc, asked.task, &mut draws, around)
}

// What the task comes to.
fn do_task<'a, S: Source, K: Sink, N: Net, F: Folder, P: Papers, C: Clock>(
    alloc: Global,
    asked: Asked<'a>,
    seed: &[u8; 32],
    around: &mut Around<S, K, N, F, P, C>,
) -> Result<WordEnd, Trouble<'a>>
    ensures ends { MayEnd asked.entry.task (status_of result) ⊎ IsInUse asked.entry.task (status_of result) }
    ensures in_use { status_of result ≡ 4 → IsAtHome around.old around.new }
    ensures held { status_of result ≡ 4
        → Adds (F.calls around.old.folder) (F.calls around.new.folder) (Held (Some Hold.InUse)) }
    ensures does { IfOk result (Between K.seen N.seen F.calls around.old around.new
        (DoesWord F.File.disk F.File.Counted.seen asked.entry.task)) }
    ensures met { result ≡ Ok WordEnd.Met
        → Prints TellsMet (K.seen around.old.out).written (K.seen around.new.out).written }
    ensures sink { Unfailed (K.seen around.old.out).faults (K.seen around.new.out).faults result }
    ensures net { Unfailed (N.seen around.old.net).faults (N.seen around.new.net).faults result }
    ensures sends { SendsOn F.File.disk F.File.Counted.seen
        (N.seen around.old.net).calls (N.seen around.new.net).calls }
    ensures quiet { is_quiet asked.entry.task ≡ true → around.new.net ≡ around.old.net }
    ensures steps { FolderStepsOn F.File.disk F.File.Counted.seen
        (F.calls around.old.folder) (F.calls around.new.folder) }
{
    match asked.task {
        DeskTask::Help => help(&mut around.out),
        _ => with_folder(alloc, asked, seed, around),
    }
}

// What the outcome is told as. Where that can't be printed the word isn't done.
fn finish<K: Sink>(alloc: Global, outcome: Result<WordEnd, Trouble<'_>>, out: &mut K) -> u8
    ensures status { result ≢ 1 → result ≡ status_of outcome.entry }
    ensures rests { IfOk outcome.entry (λ end. out.new ≡ out.old) }
    ensures sink { result ≢ 1 → (K.seen out.new).faults ≡ (K.seen out.old).faults }
{
    if let Err(trouble) = &outcome
        && !tell(alloc, trouble, out)
    {
        return 1;
    }
    status_of(&outcome)
}

// Does the task, and tells what it comes to where that isn't told yet.
fn run_task<'a, S: Source, K: Sink, N: Net, F: Folder, P: Papers, C: Clock>(
    alloc: Global,
    asked: Asked<'a>,
    seed: &[u8; 32],
    around: &mut Around<S, K, N, F, P, C>,
) -> u8
    ensures ends { MayEnd asked.entry.task result ⊎ IsInUse asked.entry.task result }
    ensures in_use { result ≡ 4 → IsAtHome around.old around.new }
    ensures held { result ≡ 4
        → Adds (F.calls around.old.folder) (F.calls around.new.folder) (Held (Some Hold.InUse)) }
    ensures done { Between K.seen N.seen F.calls around.old around.new
        (DoneBy F.File.disk F.File.Counted.seen asked.entry.task) result }
    ensures met { result ≡ 5
        → Prints TellsMet (K.seen around.old.out).written (K.seen around.new.out).written }
    ensures sink { result ≢ 1 → (K.seen around.new.out).faults ≡ (K.seen around.old.out).faults }
    ensures net { result ≢ 1 → (N.seen around.new.net).faults ≡ (N.seen around.old.net).faults }
    ensures sends { SendsOn F.File.disk F.File.Counted.seen
        (N.seen around.old.net).calls (N.seen around.new.net).calls }
    ensures quiet { is_quiet asked.entry.task ≡ true → around.new.net ≡ around.old.net }
    ensures steps { FolderStepsOn F.File.disk F.File.Counted.seen
        (F.calls around.old.folder) (F.calls around.new.folder) }
{
    let outcome = do_task(alloc, asked, seed, around);
    finish(alloc, outcome, &mut around.out)
}

// What wrong words are told.
fn refuse<K: Sink>(out: &mut K) -> u8
    ensures either { Contains (2 ∷ 1 ∷ []) result }
    ensures sink { result ≢ 1 → (K.seen out.new).faults ≡ (K.seen out.old).faults }
{
    match out.put(USAGE.as_bytes()) {
        Ok(()) => 2,
        Err(_) => 1,
    }
}

/// Does what the words ask for, and gives the status of the program: 0 where it is done, 1 where it isn't, 2
/// where the words aren't those of a desk or a name isn't taken, 3 where a card, a pair file or a letter isn't
/// right, 4 where another process has the desk, and 5 where it is done and letters met. What is printed says
/// what a person can do.
///
/// All that is drawn by lot is drawn out of `seed`, of which no other run may know.
pub fn run_desk<S: Source, K: Sink, N: Net, F: Folder, P: Papers, C: Clock>(
    alloc: Global,
    words: &Vec<String>,
    seed: &[u8; 32],
    around: &mut Around<S, K, N, F, P, C>,
) -> u8
    // Each word has its statuses.
    ensures ends { AskSome (words_in words.now) → EndsAsAsked (words_in words.now) result }
    ensures wrong { (AskSome (words_in words.now) → ⊥) → Contains (2 ∷ 1 ∷ []) result }
    // With wrong words nothing is touched but the output.
    ensures rests { (AskSome (words_in words.now) → ⊥) → IsAtHome around.old around.new }
    ensures folder_rests { (AskSome (words_in words.now) → ⊥) → around.new.folder ≡ around.old.folder }
    // Nor is it where another process has the desk; its folder is asked for, and that doesn't fail.
    ensures in_use { result ≡ 4 → IsAtHome around.old around.new }
    ensures held { result ≡ 4
        → Adds (F.calls around.old.folder) (F.calls around.new.folder) (Held (Some Hold.InUse)) }
    // A word that needs no server makes no call on the net.
    ensures quiet { (AskServers (words_in words.now) → ⊥) → around.new.net ≡ around.old.net }
    // With status 0 or 5 the word has done what it is to do, row by row.
    ensures done { Between K.seen N.seen F.calls around.old around.new
        (DoneIfAsked F.File.disk F.File.Counted.seen (words_in words.now)) result }
    // Where letters met that is printed, with the name of the box.
    ensures met { result ≡ 5
        → Prints TellsMet (K.seen around.old.out).written (K.seen around.new.out).written }
    // A fault of the net or of the output is told as a word that isn't done.
    ensures sink { result ≢ 1 → (K.seen around.new.out).faults ≡ (K.seen around.old.out).faults }
    ensures net { result ≢ 1 → (N.seen around.new.net).faults ≡ (N.seen around.old.net).faults }
    ensures sends { Sends F.File.disk F.File.Counted.seen
        (N.seen around.old.net).calls (N.seen around.new.net).calls }
    ensures steps { FolderSteps F.File.disk F.File.Counted.seen
        (F.calls around.old.folder) (F.calls around.new.folder) }
{
    match asked_of(alloc, words) {
        Ok(Some(asked)) => run_task(alloc, asked, seed, around),
        Ok(None) => refuse(&mut around.out),
        Err(_) => finish(alloc, Err(Trouble::NoMemory), &mut around.out),
    }
}
