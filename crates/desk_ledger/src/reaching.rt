//! The server that a desk waits for.
ghost use Rattle.std.specs.Prelude.{◌≡◌, option_map};
ghost use Rattle.step_rules.specs.ClientAsks.{sends};
ghost use Rattle.client_core.specs.Answers.{addressed};

use crate::ledger::Ledger;
use frame_rules::FRAME_MAX;
use node_journal::Disk;

impl<D: Disk> Ledger<D> {
    /// The server that the current step's frame goes to, the leader 0 or the helper 1. None where no request
    /// is current.
    pub fn server(&self) -> Option<u8>
        ensures { result
            ≡ option_map (λ sent. sent.0) (option_map addressed (sends self.now.client.core.client)) }
    {
        let mut frame = [0u8; FRAME_MAX];
        match self.client.send(&mut frame) {
            Some((server, _)) => Some(server),
            None => None,
        }
    }
}
