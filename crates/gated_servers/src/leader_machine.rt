//! A gated leader as the machine that its records give.
ghost use Rattle.std.specs.Prelude.{◌≡◌, IfSome, IsNone};
ghost use Rattle.express_words.specs.declared.role.Role.TheVariants as role;
ghost use Rattle.gated_servers.specs.Machines.{IsLeaderOpening};
ghost use Rattle.gated_servers.specs.Openings.{IsGatedOpening, gated_record};

use crate::leader::GatedLeader;
use crate::opening::GatedOpening;
use express_words::{NoMemory, Role};
use frame_rules::FRAME_MAX;
use kept_machine::Machine;
use lane_leases::{LaneLeases, LeaderNote};
use leader_core::Leader;
use node_restart::frame_in;
use std::alloc::Global;
use wire_frames::Received;

// The opening that a record is, if it is a leader's.
fn leader_opening(first: &[u8]) -> Option<GatedOpening>
    ensures some { IfSome result (λ o. IsGatedOpening o × (o.server.role ≡ role.Leader)) }
    ensures is { IfSome result (λ o. first.now ≡ gated_record o) }
    ensures none { IsNone result → IsLeaderOpening first.now → ⊥ }
{
    let opening = GatedOpening::of(first)?;
    match opening.server.role {
        Role::Leader => Some(opening),
        Role::Helper => None,
    }
}

impl Machine for GatedLeader {
    ghost use Rattle.gated_servers.specs.Machines.{leader_rules, leader_rules_hold};

    ghost rules = { leader_rules };

    fn is_opening(first: &[u8]) -> bool {
        match leader_opening(first) {
            Some(_) => true,
            None => false,
        }
    }

    fn is_record(bytes: &[u8]) -> bool {
        match frame_in(bytes) {
            Some(_) => true,
            None => match LeaderNote::of(bytes) {
                Some(_) => true,
                None => false,
            },
        }
    }

    fn open(alloc: Global, first: &[u8]) -> Result<GatedLeader, NoMemory> {
        let Some(opening) = leader_opening(first) else {
            unreachable!()
        };
        let leader = Leader::open(alloc, &opening.server.settings, &opening.server.seed)?;
        let leases = LaneLeases::open(alloc, &opening.gate)?;
        Ok(GatedLeader {
            opening,
            leader,
            leases,
        })
    }

    fn take_memory(&mut self, _alloc: Global, _bytes: &[u8]) -> Result<(), NoMemory> {
        Ok(())
    }

    fn step(&mut self, bytes: &[u8]) {
        let mut out = [0; FRAME_MAX];
        match bytes {
            [1, frame @ ..] => {
                let _ = self.hear_client(&Received::of(frame), &mut out);
            }
            [2, frame @ ..] => {
                let _ = self.hear_link(&Received::of(frame), &mut out);
            }
            _ => match LeaderNote::of(bytes) {
                Some(LeaderNote::Row(note)) => {
                    let _ = self.note(&note);
                }
                Some(LeaderNote::Asked(ask)) => {
                    let _ = self.lease(&ask);
                }
                Some(LeaderNote::Ended(ended)) => self.leases.end(ended),
                None => {}
            },
        }
    }

    ghost rules_hold = { leader_rules_hold };
}
