//! A whole run at one honest server, against the other server and any clients that do what they like: all that it
//! sends is the same for other aims of the honest clients' writes.
//!
//! The functions here call the laws of a server's steps and of a choice and its move; their contracts are laws.
#![tactic(auto)]

ghost use Rattle.run_sights.specs.HelperRuns.{HelperMasksStay, HelperRunsReturn, HelperRunsStay, HelperSightsStay};
ghost use Rattle.run_sights.specs.LeaderRuns.{LeaderMasksStay, LeaderRunsReturn, LeaderRunsStay, LeaderSightsStay};
ghost use Rattle.run_sights.specs.RealWrites.{ClientsSendTheirs, LeavesAreReal};
ghost use Rattle.run_sights.specs.WriteLaws.{WritesReturn, WritesTellTheSame};

use moved_worlds::moved_choices_are_twins;
use step_hiding::{helpers_tell_views, leaders_tell_views};
use write_hiding::{views_stay, writes_are_choices};

/// An honest client's frames are the same for its write and for the moved one: to the adversary's server its root,
/// the public part and its share of the proof, and to the honest one that one's root. The moved write may be moved,
/// and the opposite move gives the write back.
pub fn honest_writes_move()
    ensures frames { WritesTellTheSame }
    ensures back { WritesReturn }
{
    views_stay();
}

/// A client's own write is one of the experiment: what its client sends to the honest server is what is sent there,
/// and that server's leaves of it are the program's.
pub fn clients_are_honest()
    ensures frames { ClientsSendTheirs }
    ensures leaves { LeavesAreReal }
{
    writes_are_choices();
}

/// The helper is honest, and the leader, with any clients, isn't. Take any events, and any other aims of the honest
/// writes at registered boxes whose keys the adversary doesn't have. Then all that the helper sends is the same; the
/// moved run is one of which the same is supposed, and the opposite move gives the first one back. The masks of boxes
/// at which no write aims stay.
pub fn helper_runs_stay()
    ensures sights { HelperSightsStay }
    ensures form { HelperRunsStay }
    ensures back { HelperRunsReturn }
    ensures masks { HelperMasksStay }
{
    views_stay();
    moved_choices_are_twins();
    helpers_tell_views();
}

/// The leader likewise, against any helper.
pub fn leader_runs_stay()
    ensures sights { LeaderSightsStay }
    ensures form { LeaderRunsStay }
    ensures back { LeaderRunsReturn }
    ensures masks { LeaderMasksStay }
{
    views_stay();
    moved_choices_are_twins();
    leaders_tell_views();
}
