//! The frames of clients that the helper takes.
ghost use Rattle.std.specs.Prelude.{◌≡◌};
ghost use Rattle.frame_rules.specs.Frames.{plain_body};
ghost use Rattle.helper_core.specs.Slots.{taken_in, want_for};

use express_words::ProofShare;
use frame_rules::{Body, DepositBody};
use lane_table::Want;

/// What a client's frame brings to its lane.
#[derive(Clone, Copy)]
pub(crate) enum ClientBody {
    Deposit(DepositBody),
    Proof(ProofShare),
}

/// What the body brings; None where the helper doesn't take it from clients.
pub(crate) fn brought_by(body: &Body<'_>) -> Option<ClientBody>
    ensures { result ≡ taken_in (plain_body body.now) }
{
    match *body {
        Body::Deposit(held) => Some(ClientBody::Deposit(held)),
        Body::Proof(share) => Some(ClientBody::Proof(share)),
        _ => None,
    }
}

/// What a deposit asks for.
pub(crate) fn want_in(held: &DepositBody) -> Want
    ensures { result ≡ want_for held.now }
{
    match held {
        DepositBody::Register(_) => Want::Register,
        DepositBody::Write(_) => Want::Write,
        DepositBody::Read(_) => Want::Read,
    }
}
