//! Laws of whole runs over bytes: what is drawn, an owner's own boxes, and what is shown.
//!
//! Each function here is empty: its contract is laws of the definitions in `specs/`.
#![tactic(auto)]

ghost use Rattle.run_rules.specs.EveryEnd.{AtEveryEnd};
ghost use Rattle.run_laws.specs.Draws.{DrawsAreApart};
ghost use Rattle.run_laws.specs.Owners.{OwnersKeepTheirs};
ghost use Rattle.run_laws.specs.Shown.{FramesAreShown};

/// In a run of every schedule each client's sixteen words of a write, its keys of a box, and both servers' draws are
/// slices of the streams that the seed is expanded into, and no two of them have a byte in common.
pub fn draws_are_apart()
    ensures { AtEveryEnd DrawsAreApart }
{}

/// A client is told that it has no box of a number only where it was told of no more boxes than that before. At the end
/// it has all boxes that it was told of.
pub fn owners_keep_theirs()
    ensures { OwnersKeepTheirs }
{}

/// Each frame that is shown is the one of the number that its event names, if that was sent by then, in the order of the
/// events, and nothing else is shown.
pub fn frames_are_shown()
    ensures { FramesAreShown }
{}
