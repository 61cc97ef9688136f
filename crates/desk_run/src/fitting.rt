//! Whether the servers of a pair are as its pair file says.
ghost use Rattle.std.specs.Prelude.{◌≡◌, IfErr, OnOk};
ghost use Rattle.desk_texts.specs.Spelling.{HasRoom};
ghost use Rattle.desk_run.specs.Ends.{IsOfPaper, IsUndone, Unfailed};
ghost use Rattle.desk_run.specs.Fits.{Fits, FitsPair, HelperFits, LeaderFits, last_lane};
ghost use Rattle.desk_run.specs.Sends.{SendsOn};
ghost use Rattle.desk_run.specs.FolderSteps.{FolderStepsOn};

use crate::around::Around;
use crate::trouble::{ServerName, Trouble};
use desk_outside::{Clock, Folder, Papers};
use desk_texts::{PairHead, Sheet};
use express_words::outside::{Net, Sink, Source};
use node_exchange::Broken;
use pair_check::{Found, ask_helper, ask_leader};

// What is told where a server gives no answer.
fn unanswered<'a>(why: Broken, server: ServerName) -> Trouble<'a>
    ensures { IsUndone result }
{
    match why {
        Broken::Fault(_) => Trouble::Unreached(server),
        Broken::Early(_) | Broken::Wrong(_) => Trouble::NoAnswer(server),
    }
}

// The last lane that a pair file names.
fn last_lane(head: &PairHead) -> u16
    ensures { result ≡ last_lane head.now }
{
    head.lane.max(head.to)
}

// Whether what a server says of itself is what the pair file at this path says.
fn fits<'a>(
    path: &'a str,
    head: &PairHead,
    server: ServerName,
    found: Found,
) -> Result<(), Trouble<'a>>
    ensures fits { OnOk result (Fits head.now found) }
    ensures trouble { IfErr result IsOfPaper }
{
    match found {
        Found::Lanes(lanes) if last_lane(head) < lanes => Ok(()),
        Found::Lanes(lanes) => Err(Trouble::FewLanes(path, server, lanes)),
        Found::OtherWidth => Err(Trouble::OtherWidth(path)),
        Found::Other => Err(Trouble::NoAnswer(server)),
    }
}

// Whether the leader is as the pair file at this path says.
#[tactic(auto, using(crate::proofs::FitLaws::is_width, crate::proofs::FitLaws::leader_on))]
fn leader_fits<'a, S: Source, K: Sink, N: Net, F: Folder, P: Papers, C: Clock>(
    path: &'a str,
    sheet: &Sheet,
    head: &PairHead,
    around: &mut Around<S, K, N, F, P, C>,
) -> Result<(), Trouble<'a>>
    requires room { HasRoom head.now.width }
    ensures fits { OnOk result (LeaderFits sheet.now.leader head.now
        (N.seen around.old.net).calls (N.seen around.new.net).calls) }
    ensures trouble { IfErr result IsOfPaper }
    ensures out { around.new.out ≡ around.old.out }
    ensures net { Unfailed (N.seen around.old.net).faults (N.seen around.new.net).faults result }
    ensures sends { SendsOn F.File.disk F.File.Counted.seen
        (N.seen around.old.net).calls (N.seen around.new.net).calls }
    ensures steps { FolderStepsOn F.File.disk F.File.Counted.seen
        (F.calls around.old.folder) (F.calls around.new.folder) }
{
    match ask_leader(&mut around.net, sheet.leader.as_str(), head.width) {
        Ok(found) => fits(path, head, ServerName::Leader, found),
        Err(why) => Err(unanswered(why, ServerName::Leader)),
    }
}

// Whether the helper is.
#[tactic(auto, using(crate::proofs::FitLaws::helper_on))]
fn helper_fits<'a, S: Source, K: Sink, N: Net, F: Folder, P: Papers, C: Clock>(
    path: &'a str,
    sheet: &Sheet,
    head: &PairHead,
    around: &mut Around<S, K, N, F, P, C>,
) -> Result<(), Trouble<'a>>
    ensures fits { OnOk result (HelperFits sheet.now.helper head.now
        (N.seen around.old.net).calls (N.seen around.new.net).calls) }
    ensures trouble { IfErr result IsOfPaper }
    ensures out { around.new.out ≡ around.old.out }
    ensures net { Unfailed (N.seen around.old.net).faults (N.seen around.new.net).faults result }
    ensures sends { SendsOn F.File.disk F.File.Counted.seen
        (N.seen around.old.net).calls (N.seen around.new.net).calls }
    ensures steps { FolderStepsOn F.File.disk F.File.Counted.seen
        (F.calls around.old.folder) (F.calls around.new.folder) }
{
    match ask_helper(&mut around.net, sheet.helper.as_str()) {
        Ok(found) => fits(path, head, ServerName::Helper, found),
        Err(why) => Err(unanswered(why, ServerName::Helper)),
    }
}

/// Asks the leader and then the helper of a pair file, once each, whether they are as it says.
pub(crate) fn check_pair<'a, S: Source, K: Sink, N: Net, F: Folder, P: Papers, C: Clock>(
    path: &'a str,
    sheet: &Sheet,
    head: &PairHead,
    around: &mut Around<S, K, N, F, P, C>,
) -> Result<(), Trouble<'a>>
    requires room { HasRoom head.now.width }
    ensures fits { OnOk result (FitsPair sheet.now head.now
        (N.seen around.old.net).calls (N.seen around.new.net).calls) }
    ensures trouble { IfErr result IsOfPaper }
    ensures out { around.new.out ≡ around.old.out }
    ensures net { Unfailed (N.seen around.old.net).faults (N.seen around.new.net).faults result }
    ensures sends { SendsOn F.File.disk F.File.Counted.seen
        (N.seen around.old.net).calls (N.seen around.new.net).calls }
    ensures steps { FolderStepsOn F.File.disk F.File.Counted.seen
        (F.calls around.old.folder) (F.calls around.new.folder) }
{
    leader_fits(path, sheet, head, around)?;
    helper_fits(path, sheet, head, around)
}
