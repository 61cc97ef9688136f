//! The worlds of a choice and of its move: a server that steps in the one tells what it tells in the other.
//!
//! The function here calls the law of one write; its contract ties it to the laws of a server's steps.
#![tactic(auto)]

ghost use Rattle.moved_worlds.specs.Moves.{MovedChoicesAreTwins};

use write_hiding::malicious_views_stay;

/// At any point but 1 and 2, in the worlds of a choice and of its move, the write and the moved one are twins:
/// one public part, the same leaves but at both targets, and the same values in the audit, whatever the viewer
/// opens.
pub fn moved_choices_are_twins()
    ensures { MovedChoicesAreTwins }
{
    malicious_views_stay();
}
