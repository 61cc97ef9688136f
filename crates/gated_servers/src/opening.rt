//! How a server behind its gate is opened, and the record of it.
ghost use Rattle.std.specs.Prelude.{◌≡◌, IsNone, IfSome};
ghost use Rattle.gated_servers.specs.Openings.{IsGatedOpening, gated_record};

use lane_gate::GateOpening;
use node_restart::Opening;

/// How many bytes the record of an opening has: the server's 45, and the gate's 5.
pub const GATED_OPENING_LEN: usize = 50;

/// How the server is opened, and its gate, which has a row for each of its lanes.
#[derive(Clone, Copy, Debug, PartialEq, Eq)]
pub struct GatedOpening {
    pub server: Opening,
    pub gate: GateOpening,
}

impl GatedOpening {
    /// The record: that of the server's opening, and behind it that of the gate's.
    pub fn record(&self) -> [u8; GATED_OPENING_LEN]
        ensures { result ≡ gated_record self.now }
    {
        let mut bytes = [0; GATED_OPENING_LEN];
        let (server, gate) = bytes.split_at_mut(45);
        server.copy_from_slice(&self.server.record());
        gate.copy_from_slice(&self.gate.record());
        bytes
    }

    /// The opening that a record is, if it is one.
    pub fn of(bytes: &[u8]) -> Option<GatedOpening>
        ensures some { IfSome result IsGatedOpening }
        ensures is { IfSome result (λ o. bytes.now ≡ gated_record o) }
        ensures none { IsNone result → (o : GatedOpening) → IsGatedOpening o → bytes.now ≡ gated_record o → ⊥ }
    {
        if bytes.len() != GATED_OPENING_LEN {
            return None;
        }
        let (server, gate) = bytes.split_at(45);
        let server = Opening::of(server)?;
        let gate = GateOpening::of(gate)?;
        if gate.owners + gate.strangers != server.settings.lanes {
            return None;
        }
        Some(GatedOpening { server, gate })
    }
}
