//! What a gate is told of its core.
ghost use Rattle.std.specs.Prelude.{◌≡◌, option_map};
ghost use Rattle.server_boxes.specs.Challenged.{plain_challenged};
ghost use Rattle.gated_servers.specs.Statements.{statement_note, with_statement_of};

use lane_gate::{LaneGate, Note, StatementHash};
use server_boxes::ChallengedWrite;

/// The note of a lane's write that waits for its proof, if one does.
pub(crate) fn statement_of(lane: u16, write: Option<ChallengedWrite<'_>>) -> Option<Note>
    ensures { result ≡ option_map (statement_note lane) (option_map plain_challenged write.entry) }
{
    match write {
        Some(write) => Some(Note::Statement {
            lane,
            serial: write.serial,
            hash: StatementHash::of(&write.ckey, write.part),
        }),
        None => None,
    }
}

/// Tells a gate the statement of the lane's write that waits for its proof. Of a write whose statement it has
/// the gate takes no other.
pub(crate) fn tell_statement(gate: &mut LaneGate, lane: u16, write: Option<ChallengedWrite<'_>>)
    ensures { gate.new ≡ with_statement_of lane (option_map plain_challenged write.entry) gate.old }
{
    if let Some(note) = statement_of(lane, write) {
        let _ = gate.note(&note);
    }
}
