//! Any bytes of a client.
ghost use Rattle.std.specs.Prelude.{◌≡◌, ◌+◌, ◌≤◌, true, length};
ghost use Rattle.frame_rules.specs.Frames.{plain, plain_body, Write as Writes};
ghost use Rattle.frame_rules.specs.Spelling.{IsFrame};
ghost use Rattle.frame_rules.specs.Whole.{is_from_client};
ghost use Rattle.frame_rules.specs.Room.{HasRoom};
ghost use Rattle.step_rules.specs.LeaderClients.{by_kind, on_client};
ghost use Rattle.leader_core.specs.State.{leader_in, AreStores};
ghost use Rattle.leader_core.specs.Told.{turn_steps, DoesTurn};

use crate::asked::{Asked, Named};
use crate::stores::LeaderStores;
use crate::turn::Turn;
use crate::writing::reply;
use chacha_expand::draw32;
use dpf_eval::Steps;
use express_words::Refusal;
use express_words::limits::LEVELS_LEN;
use frame_rules::{Body, Frame};
use std::sync::ledger::Ledger;
use wire_frames::{Received, refused_bytes};

impl LeaderStores {
    /// A write of this root and public part.
    #[tactic(auto, unfolding(step_rules::specs::LeaderClients::by_kind))]
    fn write(&mut self, frame: &Frame<'_>, root: u128, part: &[u8], out: &mut [u8]) -> Turn
        requires is { AreStores self.old }
        requires is_frame { IsFrame (plain frame.now) }
        requires class { is_from_client (plain_body frame.now.body) ≡ true }
        requires room { HasRoom out.old }
        ensures does { DoesTurn (by_kind (leader_in self.old) (plain frame.now) (Writes root part.now))
            self.new result out.old out.new }
        ensures none { turn_steps (leader_in self.old) (by_kind (leader_in self.old) (plain frame.now)
            (Writes root part.now)).answer ≡ 0 }
        ensures settings { self.new.settings ≡ self.old.settings }
    {
        if part.len() != LEVELS_LEN + self.settings.width as usize {
            return reply(&refused_bytes(Refusal::Malformed(0)), out);
        }
        let draw = draw32(&self.seed, self.draws);
        self.ask(frame, Asked::Writing(root, draw), part, None, out)
    }

    /// Bytes of a client.
    #[tactic(auto, unfolding(step_rules::specs::LeaderClients::by_kind, step_rules::specs::LeaderClients::on_whole))]
    pub(crate) fn hear_client<L: Ledger>(
        &mut self,
        received: &Received<'_>,
        out: &mut [u8],
        steps: &mut Steps<L>,
    ) -> Turn
        requires is { AreStores self.old }
        requires room { HasRoom out.old }
        ensures does { DoesTurn (on_client (leader_in self.old) received.now) self.new result out.old out.new }
        ensures steps { steps.new ≡ steps.old + turn_steps (leader_in self.old) (on_client
            (leader_in self.old) received.now).answer }
        ensures settings { self.new.settings ≡ self.old.settings }
    {
        let frame = match received.frame() {
            Ok(frame) => frame,
            Err(refusal) => return reply(&refused_bytes(refusal), out),
        };
        match frame.body {
            Body::Register { address, key } => {
                self.ask(&frame, Asked::Registering(address, key), &[], None, out)
            }
            Body::Write { root, part } => self.write(&frame, root, part, out),
            Body::Read { box_number, token } => {
                let named = Named {
                    number: box_number,
                    held: token,
                };
                self.ask(&frame, Asked::Reading(box_number), &[], Some(named), out)
            }
            Body::Retire { box_number, token } => {
                let named = Named {
                    number: box_number,
                    held: token,
                };
                self.ask(&frame, Asked::Retiring(box_number), &[], Some(named), out)
            }
            Body::Proof(share) => self.prove(&frame, &share, out, steps),
            _ => reply(&refused_bytes(Refusal::Malformed(5)), out),
        }
    }
}
