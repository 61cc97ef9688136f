//! At which serial the owner's lane stands, as each server of a pair says.
ghost use Rattle.std.specs.Prelude.{◌≡◌, IfErr, true};
ghost use Rattle.express_words.specs.Limits.{IsWidth};
ghost use Rattle.express_words.specs.declared.role.Role.TheVariants.{Helper, Leader};
ghost use Rattle.desk_texts.specs.Places.{is_place};
ghost use Rattle.owner_check.specs.Questions.{helper_question, leader_question, width_question};
ghost use Rattle.desk_around.specs.Ends.{IsOfPaper, Unfailed};
ghost use Rattle.desk_steps.specs.Net.{SendsOn};
ghost use Rattle.owner_ledger.specs.Checks.{SaysOf, standing_by};

use desk_around::{Trouble, unanswered};
use desk_sheets::Pair;
use door_exchange::Broken;
use express_words::Role;
use express_words::outside::Net;
use node_journal::Disk;
use owner_check::{Found, ask_helper, ask_leader, ask_width};

// At which serial the lane stands by what a server told, or why that isn't known.
fn standing_by<'a>(
    server: Role,
    path: &'a str,
    told: Result<Found, Broken>,
) -> Result<u32, Trouble<'a>>
    ensures is { result ≡ standing_by server path.entry told }
    ensures trouble { IfErr result IsOfPaper }
{
    match told {
        Ok(Found::Stands(serial)) => Ok(serial),
        Ok(Found::OtherWidth) => Err(Trouble::OtherWidth(path)),
        Ok(Found::OtherServer) => Err(Trouble::Swapped(path)),
        Ok(Found::NotYours) => Err(Trouble::NotYours(server)),
        Ok(Found::Other) => Err(Trouble::NoAnswer(server)),
        Err(why) => Err(unanswered(server, why)),
    }
}

// The leader is asked whether the lane is this owner's.
#[tactic(auto, using(crate::proofs::CheckLaws::says, crate::proofs::CheckLaws::unfailed, crate::proofs::CheckLaws::leader_on))]
pub(crate) fn leader_serial<'a, D: Disk, N: Net>(
    pair: &Pair,
    path: &'a str,
    net: &mut N,
) -> Result<u32, Trouble<'a>>
    requires place { is_place pair.now.leader.place ≡ true }
    ensures says { SaysOf Leader pair.now.leader (leader_question pair.now.lane) path.entry result
        (N.seen net.old).calls (N.seen net.new).calls }
    ensures trouble { IfErr result IsOfPaper }
    ensures net { Unfailed (N.seen net.old).faults (N.seen net.new).faults result }
    ensures sends { SendsOn D.disk D.Counted.seen (N.seen net.old).calls (N.seen net.new).calls }
{
    let told = ask_leader(net, &pair.leader, pair.lane);
    standing_by(Role::Leader, path, told)
}

// The leader is asked whether its messages have the pair's width.
#[tactic(auto, using(crate::proofs::CheckLaws::says, crate::proofs::CheckLaws::unfailed, crate::proofs::CheckLaws::width_on))]
pub(crate) fn width_serial<'a, D: Disk, N: Net>(
    pair: &Pair,
    path: &'a str,
    net: &mut N,
) -> Result<u32, Trouble<'a>>
    requires place { is_place pair.now.leader.place ≡ true }
    requires width { IsWidth pair.now.width }
    ensures says { SaysOf Leader pair.now.leader (width_question pair.now.lane pair.now.width) path.entry
        result (N.seen net.old).calls (N.seen net.new).calls }
    ensures trouble { IfErr result IsOfPaper }
    ensures net { Unfailed (N.seen net.old).faults (N.seen net.new).faults result }
    ensures sends { SendsOn D.disk D.Counted.seen (N.seen net.old).calls (N.seen net.new).calls }
{
    let told = ask_width(net, &pair.leader, pair.lane, pair.width);
    standing_by(Role::Leader, path, told)
}

// The helper is asked whether the lane is this owner's.
#[tactic(auto, using(crate::proofs::CheckLaws::says, crate::proofs::CheckLaws::unfailed, crate::proofs::CheckLaws::helper_on))]
pub(crate) fn helper_serial<'a, D: Disk, N: Net>(
    pair: &Pair,
    path: &'a str,
    net: &mut N,
) -> Result<u32, Trouble<'a>>
    requires place { is_place pair.now.helper.place ≡ true }
    ensures says { SaysOf Helper pair.now.helper (helper_question pair.now.lane) path.entry result
        (N.seen net.old).calls (N.seen net.new).calls }
    ensures trouble { IfErr result IsOfPaper }
    ensures net { Unfailed (N.seen net.old).faults (N.seen net.new).faults result }
    ensures sends { SendsOn D.disk D.Counted.seen (N.seen net.old).calls (N.seen net.new).calls }
{
    let told = ask_helper(net, &pair.helper, pair.lane);
    standing_by(Role::Helper, path, told)
}
