//! Which frames of clients a server takes.
ghost use Rattle.std.specs.Prelude.{◌≡◌, ◌≤◌, IsTrue, length};
ghost use Rattle.frame_rules.specs.Frames.{plain_body};
ghost use Rattle.frame_rules.specs.Whole.{whole};
ghost use Rattle.lane_gate.specs.Passing.{plain_ticketed};
ghost use Rattle.many_servers.specs.Passing.{is_of_letter, may_send, passes, takes, takes_bytes};

use frame_rules::Body;
use lane_gate::{Holder, LaneGate, StatementHash, Ticket, Ticketed};
use wire_frames::Received;

fn passes(gate: &LaneGate, sent: &Ticketed<'_>) -> bool
    ensures { result ≡ passes gate.now (plain_ticketed sent.now) }
{
    match gate.pass(sent) {
        Ok(()) => true,
        Err(_) => false,
    }
}

fn is_of_letter(body: &Body<'_>) -> bool
    ensures { result ≡ is_of_letter (plain_body body.now) }
{
    match body {
        Body::Deposit(_) | Body::Write { .. } | Body::Proof(_) => true,
        _ => false,
    }
}

fn may_send(holder: &Holder, body: &Body<'_>) -> bool
    ensures { result ≡ may_send holder.now (plain_body body.now) }
{
    match holder {
        Holder::Keyless | Holder::Free => false,
        Holder::Owner(_) => true,
        Holder::Leased(_) => is_of_letter(body),
    }
}

fn takes(gate: &LaneGate, sent: &Ticketed<'_>) -> bool
    ensures { result ≡ takes gate.now (plain_ticketed sent.now) }
{
    passes(gate, sent) && may_send(&gate.row(sent.frame.lane).holder, &sent.frame.body)
}

/// Whether the bytes are one frame that passes the gate with this ticket, and for a proof with this statement. Of a lease
/// only a letter's frames are taken.
#[tactic(auto, using(frame_rules::proofs::GrammarLaws::spelling_limit))]
pub(crate) fn takes_bytes(
    gate: &LaneGate,
    ticket: Ticket,
    statement: Option<StatementHash>,
    bytes: &[u8],
) -> bool
    ensures takes { result ≡ takes_bytes gate.now ticket statement bytes.now }
    ensures few { IsTrue result → length bytes.now ≤ 8213 }
{
    match Received::of(bytes).frame() {
        Ok(frame) => takes(
            gate,
            &Ticketed {
                ticket,
                statement,
                frame,
            },
        ),
        Err(_) => false,
    }
}
