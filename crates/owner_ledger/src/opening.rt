//! The word `open`.
ghost use Rattle.std.specs.Prelude.{◌≡◌, ◌≢◌, ◌≤◌, IfErr, IfOk, Ok, OnOk, false, true};
ghost use Rattle.rand_core.specs.Stream.{fill_bytes};
ghost use Rattle.desk_draws.specs.Streams.{stream_from};
ghost use Rattle.desk_sheets.specs.Spelling.{IsPair};
ghost use Rattle.desk_around.specs.Ends.{IsCause, IsOfPaper, Unfailed};
ghost use Rattle.desk_around.specs.Scenes.{Between};
ghost use Rattle.desk_steps.specs.Folder.{FolderStepsOn};
ghost use Rattle.desk_steps.specs.Net.{SendsOn};
ghost use Rattle.owner_ledger.specs.Desks.{HasDesk, IsOfFile, OpensDesk};

use crate::checking::check_pair;
use crate::finding::ledger_in;
use crate::making::make;
use desk_around::{Around, Trouble, WordEnd, paper_at, say};
use desk_draws::Draws;
use desk_outside::{Clock, Folder, Papers};
use desk_sheets::{OwnersServer, Pair, SheetFault, read_pair};
use express_words::outside::{Net, Sink, Source};
use kept_ledger::LedgerOpening;
use std::alloc::Global;

// The pair of the file at a path.
#[tactic(auto, using(crate::proofs::PairLaws::of_file))]
fn pair_at<'a, P: Papers>(alloc: Global, path: &'a str, papers: &mut P) -> Result<Pair, Trouble<'a>>
    ensures of_file { IfOk result (IsOfFile P.Paper.seen) }
    ensures trouble { IfErr result IsOfPaper }
{
    let text = paper_at(alloc, papers, path)?;
    match read_pair(alloc, &text) {
        Ok(pair) => Ok(pair),
        Err(SheetFault::Earlier) => Err(Trouble::Earlier(path)),
        Err(SheetFault::OtherKind) => Err(Trouble::NoPairFile(path)),
        Err(SheetFault::Wrong(line)) => Err(Trouble::BadLine(path, line)),
        Err(SheetFault::NoMemory) => Err(Trouble::NoMemory),
    }
}

fn is_same_server(one: &OwnersServer, other: &OwnersServer) -> bool
    ensures same { result ≡ true → one.now ≡ other.now }
    ensures other { result ≡ false → one.now ≢ other.now }
{
    one.place.as_str() == other.place.as_str() && one.key.0 == other.key.0
}

fn is_same_pair(one: &Pair, other: &Pair) -> bool
    ensures same { result ≡ true → one.now ≡ other.now }
    ensures other { result ≡ false → one.now ≢ other.now }
{
    one.width == other.width
        && one.boxes == other.boxes
        && one.lane == other.lane
        && is_same_server(&one.leader, &other.leader)
        && is_same_server(&one.helper, &other.helper)
}

// Makes a ledger for a pair where there is none. One that is there is for that pair, and stays.
fn make_or_keep<'a, F: Folder>(
    alloc: Global,
    pair: &Pair,
    first: u32,
    draws: &mut Draws,
    folder: &mut F,
) -> Result<(), Trouble<'a>>
    requires pair { IsPair pair.now }
    requires some { 1 ≤ first }
    ensures desk { OnOk result (HasDesk F.File.disk F.File.Counted.seen pair.now
        (fill_bytes 32 (stream_from draws.old)).0 first (F.calls folder.old) (F.calls folder.new)) }
    ensures cause { IfErr result IsCause }
    ensures steps { FolderStepsOn F.File.disk F.File.Counted.seen (F.calls folder.old) (F.calls folder.new) }
{
    let Some(kept) = ledger_in(alloc, folder)? else {
        let seed = draws.seed();
        return make(alloc, &LedgerOpening::on(pair, &seed, first), folder);
    };
    let is_same = is_same_pair(kept.machine().ledger().pair(), pair);
    drop(kept);
    if is_same {
        Ok(())
    } else {
        Err(Trouble::OtherDesk)
    }
}

/// The word `open`: asks both servers whether they are as the pair file says, and makes a desk for them where
/// there is none. One for the same pair that is there stays.
pub fn open<'a, S: Source, K: Sink, N: Net, F: Folder, P: Papers, C: Clock>(
    alloc: Global,
    path: &'a str,
    draws: &mut Draws,
    around: &mut Around<S, K, N, F, P, C>,
) -> Result<WordEnd, Trouble<'a>>
    ensures opens { IfOk result (Between K.seen N.seen F.calls around.old around.new
        (OpensDesk F.File.disk F.File.Counted.seen P.Paper.seen path.entry
        (fill_bytes 32 (stream_from draws.old)).0)) }
    ensures trouble { IfErr result IsOfPaper }
    ensures not_met { result ≢ Ok WordEnd.Met }
    ensures sink { Unfailed (K.seen around.old.out).faults (K.seen around.new.out).faults result }
    ensures net { Unfailed (N.seen around.old.net).faults (N.seen around.new.net).faults result }
    ensures sends { SendsOn F.File.disk F.File.Counted.seen
        (N.seen around.old.net).calls (N.seen around.new.net).calls }
    ensures steps { FolderStepsOn F.File.disk F.File.Counted.seen
        (F.calls around.old.folder) (F.calls around.new.folder) }
{
    let pair = pair_at(alloc, path, &mut around.papers)?;
    let first = check_pair::<F::File, N>(&pair, path, &mut around.net)?;
    make_or_keep(alloc, &pair, first, draws, &mut around.folder)?;
    say(
        &mut around.out,
        "the desk is open; make boxes and a card with box NAME\n",
    )?;
    Ok(WordEnd::Done)
}
