//! A server is opened, from its settings or from its journal.
ghost use Rattle.std.specs.Prelude.{◌≡◌, IfOk, IfErr};
ghost use Rattle.node_serve.specs.KeptOpening.{opening_of, IsOpened, IsOpenedOn, IsOfOpening, IsCauseOf, LeavesDisk, CountsOpen};

use crate::node::Node;
use crate::open_fault::{OpenFault, first_difference};
use express_words::{NoMemory, Role, Text};
use helper_core::Helper;
use leader_core::Leader;
use node_journal::{Disk, JournalFault};
use node_restart::{KeepFault, Kept, Opening};
use settings_text::ServeSettings;
use std::alloc::Global;

/// Opens the server of the settings' role, with their limits and this seed.
pub fn open_node(alloc: Global, settings: &ServeSettings, seed: &[u8; 32]) -> Result<Node, NoMemory>
    ensures opened { IfOk result (λ node. IsOpened settings.now seed.now node) }
{
    match settings.role {
        Role::Leader => {
            let leader = Leader::open(alloc, &settings.settings, seed)?;
            let peer = String::from_str(alloc, settings.peer.as_str())?;
            Ok(Node::Lead(leader, Text::from_string(peer)))
        }
        Role::Helper => Ok(Node::Help(Helper::open(alloc, &settings.settings, seed)?)),
    }
}

/// So many bytes of its disk a server's journal uses at most.
pub const JOURNAL_LIMIT: u64 = 1 << 30;

/// Opens the server of the settings: on a disk with no byte a new one with this seed, and else the one of
/// the journal that stands there, whose seed is the journal's, if it has the role and the limits of the
/// settings. A refusal hands the disk back.
#[tactic(auto, using(crate::proofs::FirstFaults::cause_before))]
pub fn open_kept<D: Disk>(
    alloc: Global,
    settings: &ServeSettings,
    seed: &[u8; 32],
    disk: D,
) -> Result<Kept<D>, (OpenFault, D)>
    // A disk with no byte gives a new server, and another one its journal's.
    ensures opened { IfOk result (IsOpenedOn D.disk JOURNAL_LIMIT (opening_of settings.now seed.now) disk) }

    ensures cause { IfErr result (λ x. IsOfOpening x.0) }
    ensures why { IfErr result (λ x. IsCauseOf x.0 JOURNAL_LIMIT (opening_of settings.now seed.now)
        (D.disk disk).reads) }
    ensures leaves { IfErr result (λ x. LeavesDisk x.0 D.disk disk x.1) }
    // The disk's count rose exactly where its fault is told.
    ensures counts_ok { IfOk result (λ k. (D.Counted.seen k.disk).faults ≡ (D.Counted.seen disk).faults) }
    ensures counts { IfErr result (λ x. CountsOpen (D.Counted.seen disk).faults (D.Counted.seen x.1).faults x.0) }
{
    let opening = Opening {
        role: settings.role,
        settings: settings.settings,
        seed: *seed,
    };
    let disk = match Kept::create(alloc, &opening, disk, JOURNAL_LIMIT) {
        Ok(kept) => return Ok(kept),
        Err((KeepFault::Journal(JournalFault::NotEmpty), disk)) => disk,
        Err((fault, disk)) => return Err((OpenFault::Keep(fault), disk)),
    };
    let kept = match Kept::reopen(alloc, disk, JOURNAL_LIMIT) {
        Ok(kept) => kept,
        Err((fault, disk)) => return Err((OpenFault::Keep(fault), disk)),
    };
    match first_difference(kept.opening(), &opening) {
        None => Ok(kept),
        Some(key) => Err((OpenFault::Differs(key), kept.into_disk())),
    }
}
