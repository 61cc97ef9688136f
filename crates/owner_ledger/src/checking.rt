//! Whether the servers of a pair are as its pair file says, and where a desk's requests may begin.
ghost use Rattle.std.specs.Prelude.{◌≡◌, ◌≤◌, ◌^◌, IfErr, IfOk, IfSome, IsNone};
ghost use Rattle.desk_sheets.specs.Spelling.{IsPair};
ghost use Rattle.desk_around.specs.Ends.{IsOfPaper, Unfailed};
ghost use Rattle.desk_steps.specs.Net.{SendsOn};
ghost use Rattle.owner_ledger.specs.Checks.{ChecksPair, first_above};

use crate::asking::{helper_serial, leader_serial, width_serial};
use desk_around::Trouble;
use desk_sheets::Pair;
use express_words::outside::Net;
use node_journal::Disk;

// The first serial above what either server has of a lane, and above what asking used of it.
fn first_above(leader: u32, helper: u32) -> Option<u32>
    ensures some { IfSome result (λ first. first ≡ first_above leader helper) }
    ensures none { IsNone result → 2 ^ 32 ≤ first_above leader helper }
{
    let used = leader.max(helper).max(1);
    if used == u32::MAX {
        return None;
    }
    Some(used + 1)
}

/// Asks both servers of a pair whether they are as its pair file at this path says; the serial from which the
/// desk's requests may begin.
#[tactic(auto, using(crate::proofs::PairLaws::is_width, crate::proofs::CheckLaws::checks))]
pub(crate) fn check_pair<'a, D: Disk, N: Net>(
    pair: &Pair,
    path: &'a str,
    net: &mut N,
) -> Result<u32, Trouble<'a>>
    requires pair { IsPair pair.now }
    ensures checks { IfOk result (λ first. ChecksPair pair.now path.entry first
        (N.seen net.old).calls (N.seen net.new).calls) }
    ensures some { IfOk result (λ first. 1 ≤ first) }
    ensures trouble { IfErr result IsOfPaper }
    ensures net { Unfailed (N.seen net.old).faults (N.seen net.new).faults result }
    ensures sends { SendsOn D.disk D.Counted.seen (N.seen net.old).calls (N.seen net.new).calls }
{
    let at_leader = leader_serial::<D, N>(pair, path, net)?;
    width_serial::<D, N>(pair, path, net)?;
    let at_helper = helper_serial::<D, N>(pair, path, net)?;
    match first_above(at_leader, at_helper) {
        Some(first) => Ok(first),
        None => Err(Trouble::UsedUp),
    }
}
