//! A helper behind its gate.
ghost use Rattle.std.specs.Prelude.{◌≡◌, ◌↔◌, IsOk, IfOk, OnErr, Some, true};
ghost use Rattle.frame_rules.specs.Room.{HasRoom};
ghost use Rattle.frame_rules.specs.Whole.{whole};
ghost use Rattle.step_rules.specs.HelperClients.{on_client};
ghost use Rattle.step_rules.specs.HelperCommands.{on_link_bytes};
ghost use Rattle.helper_core.specs.Turns.{DoesClient, DoesLink};
ghost use Rattle.helper_core.specs.Challenged.{challenged_in};
ghost use Rattle.step_rules.specs.Helper.{row_at};
ghost use Rattle.lane_gate.specs.Gates.{Passes, note_answer};
ghost use Rattle.lane_gate.specs.Passing.{plain_ticketed};
ghost use Rattle.gated_servers.specs.Frames.{passes_link, request_open};
ghost use Rattle.gated_servers.specs.Helpers.{helper_commanded, helper_heard, helper_noted, helper_took};

use crate::opening::GatedOpening;
use crate::passing::{is_command, is_open};
use crate::told::tell_statement;
use helper_core::{Helper, LinkTurn, hear_command};
use lane_gate::{GateFault, LaneGate, NotYours, Note, Ticketed};
use wire_frames::Received;

/// A helper, and the gate in front of it.
#[derive(Drop)]
pub struct GatedHelper {
    pub opening: GatedOpening,
    pub helper: Helper,
    pub gate: LaneGate,
}

impl GatedHelper {
    /// Says whether a client's frame is handed on, as the gate does.
    pub fn pass(&self, sent: &Ticketed<'_>) -> Result<(), NotYours>
        ensures gated { IsOk result ↔ Passes self.now.gate (plain_ticketed sent.now) }
    {
        self.gate.pass(sent)
    }

    // The helper took a frame of this lane: the gate is told of a write that waits for its proof.
    fn tell(&mut self, lane: u16)
        ensures { self.new ≡ helper_took self.old lane self.old.helper }
    {
        tell_statement(&mut self.gate, lane, self.helper.challenged(lane));
    }

    /// Bytes of a client, which passed: writes the helper's reply to the front of `out`, and gives its length. Where
    /// they are no frame of a lane and serial of which somebody may still send frames, nothing changes.
    pub fn hear_client(
        &mut self,
        received: &Received<'_>,
        out: &mut [u8],
    ) -> Result<usize, NotYours>
        requires room { HasRoom out.old }
        ensures after { self.new ≡ helper_heard self.old received.now }
        ensures open { IsOk result ↔ (request_open self.old.gate (whole received.now) ≡ true) }
        ensures does { IfOk result (λ length. DoesClient (on_client self.old.helper received.now)
            self.old.helper self.new.helper length out.old out.new) }
        ensures silent { OnErr result (out.new ≡ out.old) }
    {
        let Some(lane) = is_open(&self.gate, received) else {
            return Err(NotYours);
        };
        let length = self.helper.hear_client(received, out);
        self.tell(lane);
        Ok(length)
    }

    /// Bytes of the leader: the helper takes a command, but no audit at the point 1 or 2, and writes its reply to the
    /// front of `out`. Of all else nothing changes.
    pub fn hear_link(
        &mut self,
        received: &Received<'_>,
        out: &mut [u8],
    ) -> Result<LinkTurn, NotYours>
        requires room { HasRoom out.old }
        ensures after { self.new ≡ helper_commanded self.old received.now }
        ensures passed { IsOk result ↔ (passes_link (whole received.now) ≡ true) }
        ensures does { IfOk result (λ turn. DoesLink (on_link_bytes self.old.helper received.now)
            self.old.helper self.new.helper turn out.old out.new) }
        ensures silent { OnErr result (out.new ≡ out.old) }
    {
        let Some(lane) = is_command(received) else {
            return Err(NotYours);
        };
        let turn = hear_command(&mut self.helper, received, out);
        self.tell(lane);
        Ok(turn)
    }

    /// Takes a key, or a lease that the leader announced, as the gate does.
    pub fn note(&mut self, note: &Note) -> Result<(), GateFault>
        ensures answer { result ≡ note_answer self.old.gate note.now }
        ensures after { self.new ≡ helper_noted self.old (Some note.now) }
    {
        self.gate.note(note)
    }
}
