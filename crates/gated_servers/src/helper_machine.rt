//! A gated helper as the machine that its records give.
ghost use Rattle.std.specs.Prelude.{◌≡◌, IfSome, IsNone};
ghost use Rattle.express_words.specs.declared.role.Role.TheVariants as role;
ghost use Rattle.gated_servers.specs.Machines.{IsHelperOpening};
ghost use Rattle.gated_servers.specs.Openings.{IsGatedOpening, gated_record};

use crate::helper::GatedHelper;
use crate::opening::GatedOpening;
use express_words::{NoMemory, Role};
use frame_rules::FRAME_MAX;
use helper_core::Helper;
use kept_machine::Machine;
use lane_gate::{LaneGate, Note};
use node_restart::frame_in;
use std::alloc::Global;
use wire_frames::Received;

// The opening that a record is, if it is a helper's.
fn helper_opening(first: &[u8]) -> Option<GatedOpening>
    ensures some { IfSome result (λ o. IsGatedOpening o × (o.server.role ≡ role.Helper)) }
    ensures is { IfSome result (λ o. first.now ≡ gated_record o) }
    ensures none { IsNone result → IsHelperOpening first.now → ⊥ }
{
    let opening = GatedOpening::of(first)?;
    match opening.server.role {
        Role::Helper => Some(opening),
        Role::Leader => None,
    }
}

impl Machine for GatedHelper {
    ghost use Rattle.gated_servers.specs.Machines.{helper_rules, helper_rules_hold};

    ghost rules = { helper_rules };

    fn is_opening(first: &[u8]) -> bool {
        match helper_opening(first) {
            Some(_) => true,
            None => false,
        }
    }

    fn is_record(bytes: &[u8]) -> bool {
        match frame_in(bytes) {
            Some(_) => true,
            None => match Note::of(bytes) {
                Some(_) => true,
                None => false,
            },
        }
    }

    fn open(alloc: Global, first: &[u8]) -> Result<GatedHelper, NoMemory> {
        let Some(opening) = helper_opening(first) else {
            unreachable!()
        };
        let helper = Helper::open(alloc, &opening.server.settings, &opening.server.seed)?;
        let gate = LaneGate::open(alloc, &opening.gate)?;
        Ok(GatedHelper {
            opening,
            helper,
            gate,
        })
    }

    fn take_memory(&mut self, _alloc: Global, _bytes: &[u8]) -> Result<(), NoMemory> {
        Ok(())
    }

    fn step(&mut self, bytes: &[u8]) {
        let mut out = [0; FRAME_MAX];
        match bytes {
            [1, frame @ ..] => {
                let _ = self.hear_client(&Received::of(frame), &mut out);
            }
            [2, frame @ ..] => {
                let _ = self.hear_link(&Received::of(frame), &mut out);
            }
            _ => {
                if let Some(note) = Note::of(bytes) {
                    let _ = self.note(&note);
                }
            }
        }
    }

    ghost rules_hold = { helper_rules_hold };
}
