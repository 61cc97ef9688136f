//! The server whose frames go to its journal.
ghost use Rattle.std.specs.Prelude.{Some, None};

use crate::logged::Logged;
use node_journal::Disk;
use node_restart::{Did, KeepFault, Kept, Role, Sender};
use wire_frames::Received;

impl<D: Disk> Logged for Kept<D> {
    ghost use Rattle.node_restart.proofs.KeepLaws.{keeps_none, keeps_both};
    ghost use Rattle.node_restart.proofs.UpToLaws.{keeps_then};
    ghost use Rattle.node_serve.specs.JournalLog.{journal_log, rises};

    type Fault = KeepFault;

    ghost log = { journal_log D.disk };

    ghost failures = { λ kept. (D.Counted.seen kept.disk).faults };

    ghost rises = { rises };

    fn role(&self) -> Role {
        self.opening().role
    }

    fn hand(
        &mut self,
        sender: Sender,
        received: &Received<'_>,
        out: &mut [u8],
    ) -> Result<Did, KeepFault> {
        self.take(sender, received, out)
    }

    fn oldest(&self, out: &mut [u8]) -> Option<usize> {
        match self.resend(out) {
            Some((_, length)) => Some(length),
            None => None,
        }
    }

    ghost none = { keeps_none D.disk };

    ghost both = { keeps_both D.disk };

    ghost halts = { keeps_then D.disk };
}
