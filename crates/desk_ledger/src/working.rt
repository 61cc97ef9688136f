//! A request of a desk, worked off.
ghost use Rattle.std.specs.Prelude.{◌≡◌, ◌≢◌, None, Ok, IfErr, OnOk};
ghost use Rattle.kept_errands.specs.Works.{HaltsAtReply, IsEnded};
ghost use Rattle.kept_errands.specs.Steps.{DiskFaultBy, NetFaultBy};
ghost use Rattle.desk_ledger.specs.Works.{WorksIfBusy};

use crate::ledger::Ledger;
use crate::pair::peers;
use express_words::outside::Net;
use kept_errands::{Halt, finish};
use node_journal::Disk;

impl<D: Disk> Ledger<D> {
    /// Works the current request off at the pair's servers, if there is one; `store` has then what came of
    /// it. Where the work halts the request stands at the step that it had come to, and may be worked on
    /// again.
    pub fn work<N: Net>(&mut self, net: &mut N) -> Result<(), Halt>
        ensures idle { self.old.client.core.client.current ≡ None
            → (result ≡ Ok (tt {0})) × (self.new ≡ self.old) × (net.new ≡ net.old) }
        ensures works { WorksIfBusy self.old self.new result (N.seen net.old).calls (N.seen net.new).calls }
        ensures keeps { IfErr result (HaltsAtReply D.disk D.Counted.seen self.new.client) }
        ensures ended { self.old.client.core.client.current ≢ None
            → OnOk result (IsEnded self.old.client.core self.new.client.core) }
        ensures entries { self.new.entries ≡ self.old.entries }
        ensures pair { self.new.pair ≡ self.old.pair }
        ensures opening { self.new.client.opening ≡ self.old.client.opening }
        ensures net_fault { NetFaultBy result (N.seen net.old).faults (N.seen net.new).faults }
        ensures disk_fault { DiskFaultBy result (D.Counted.seen self.old.client.disk).faults
            (D.Counted.seen self.new.client.disk).faults }
    {
        if self.client.is_idle() {
            return Ok(());
        }
        finish(&mut self.client, &peers(&self.pair), net)
    }
}
