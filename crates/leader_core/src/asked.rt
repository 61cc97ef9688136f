//! What a request's first command is issued for.
ghost use Rattle.std.specs.Prelude.{◌≡◌, ◌≤◌, ℕ, List, true};
ghost use Rattle.express_words.specs.Limits.{IsWidth};
ghost use Rattle.frame_rules.specs.Frames.{plain_body};
ghost use Rattle.frame_rules.specs.Kinds.{is_linked};
ghost use Rattle.frame_rules.specs.Spelling.{kind_of, IsBody};
ghost use Rattle.leader_core.specs.Asked.{asked_with, command_for, draws_for, want_for, IsAsked};

use frame_rules::Body;
use lane_table::Want;

/// What the leader holds of a request whose first command is outstanding. The public part of a write lies in the
/// lane's room.
#[derive(Clone, Copy)]
pub(crate) enum Asked {
    /// A box at this address, with the leader's key.
    Registering(u128, [u8; 32]),
    /// A write: the leader's root, and its draw for the challenges.
    Writing(u128, [u8; 32]),
    /// The message of a box.
    Reading(u32),
    /// The last message of a box.
    Retiring(u32),
}

/// The box that a read or a retire names, and the token that it shows.
#[derive(Clone, Copy)]
pub(crate) struct Named {
    pub(crate) number: u32,
    pub(crate) held: u128,
}

impl Asked {
    pub(crate) fn want(&self) -> Want
        ensures { (part : List ℕ) → result ≡ want_for self.now part }
    {
        match self {
            Asked::Registering(_, _) => Want::Register,
            Asked::Writing(_, _) => Want::Write,
            Asked::Reading(_) => Want::Read,
            Asked::Retiring(_) => Want::Read,
        }
    }

    /// The command that is issued.
    pub(crate) fn command<'a>(self, part: &'a [u8]) -> Body<'a>
        ensures body { plain_body result ≡ command_for self part.now }
        ensures linked { is_linked (kind_of (plain_body result)) ≡ true }
        ensures right { (width : ℕ) → IsWidth width → IsAsked width self part.now → IsBody (plain_body result) }
    {
        match self {
            Asked::Registering(address, _) => Body::LinkRegister { address },
            Asked::Writing(_, ckey) => Body::LinkBegin { ckey, part },
            Asked::Reading(box_number) => Body::LinkRead { box_number },
            Asked::Retiring(box_number) => Body::LinkRetire { box_number },
        }
    }

    /// How many draws it takes.
    pub(crate) fn draws(&self) -> u64
        ensures number { result ≡ draws_for self.now }
        ensures most { result ≤ 1 }
    {
        match self {
            Asked::Writing(_, _) => 1,
            Asked::Registering(_, _) => 0,
            Asked::Reading(_) => 0,
            Asked::Retiring(_) => 0,
        }
    }
}
