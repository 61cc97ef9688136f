//! A frame comes to its addressee.
use crate::pool::{Addressee, Letter};
use crate::state::State;
use crate::{at_helper, at_leader};
use express_words::NoMemory;
use std::alloc::Global;

impl State {
    ghost use Rattle.std.specs.Prelude.{OnOk};
    ghost use Rattle.run_rules.specs.Letters.{ToClient, ToLeader, ToHelper, ToLeaderLink, ToHelperLink};
    ghost use Rattle.run_rules.specs.Run.{comes};
    ghost use Rattle.replay_world.specs.Parts.{addressee_in};
    ghost use Rattle.replay_world.specs.View.{Moves, Keeps};

    // To a client; nothing comes of it where the lane has none.
    fn client_hears(&mut self, alloc: Global, lane: u16, frame: &[u8]) -> Result<(), NoMemory>
        ensures moved { OnOk result (Moves (λ w. comes w (ToClient lane) frame.now) self.old self.new) }
        ensures keeps { Keeps self.old self.new }
    {
        if usize::from(lane) >= self.askers.len() {
            return Ok(());
        }
        let asker = &mut self.askers[usize::from(lane)];
        asker.hear(alloc, lane, frame, &mut self.outcomes)
    }

    // To the leader, from a client.
    fn leader_hears(&mut self, alloc: Global, frame: &[u8]) -> Result<(), NoMemory>
        ensures moved { OnOk result (Moves (λ w. comes w ToLeader frame.now) self.old self.new) }
        ensures keeps { Keeps self.old self.new }
    {
        at_leader::frame_comes(
            alloc,
            &mut self.leader,
            &mut self.pool,
            frame,
            &mut self.out,
        )
    }

    // To the leader, from the helper.
    fn leader_is_answered(&mut self, alloc: Global, frame: &[u8]) -> Result<(), NoMemory>
        ensures moved { OnOk result (Moves (λ w. comes w ToLeaderLink frame.now) self.old self.new) }
        ensures keeps { Keeps self.old self.new }
    {
        at_leader::reply_comes(
            alloc,
            &mut self.leader,
            &mut self.pool,
            frame,
            &mut self.out,
        )
    }

    // To the helper, from a client.
    fn helper_hears(&mut self, alloc: Global, frame: &[u8]) -> Result<(), NoMemory>
        ensures moved { OnOk result (Moves (λ w. comes w ToHelper frame.now) self.old self.new) }
        ensures keeps { Keeps self.old self.new }
    {
        at_helper::frame_comes(
            alloc,
            &mut self.helper,
            &mut self.pool,
            frame,
            &mut self.out,
        )
    }

    // To the helper, from the leader.
    fn helper_is_ordered(&mut self, alloc: Global, frame: &[u8]) -> Result<(), NoMemory>
        ensures moved { OnOk result (Moves (λ w. comes w ToHelperLink frame.now) self.old self.new) }
        ensures keeps { Keeps self.old self.new }
    {
        at_helper::command_comes(
            alloc,
            &mut self.helper,
            &mut self.journal,
            &mut self.pool,
            frame,
            &mut self.out,
        )
    }

    /// To whom it is for.
    pub fn arrive(&mut self, alloc: Global, letter: &Letter) -> Result<(), NoMemory>
        ensures moved { OnOk result (Moves (λ w. comes w (addressee_in letter.now.to) letter.now.bytes) self.old self.new) }
        ensures keeps { Keeps self.old self.new }
    {
        let frame = letter.bytes.as_slice();
        match letter.to {
            Addressee::Client(lane) => self.client_hears(alloc, lane, frame),
            Addressee::Leader => self.leader_hears(alloc, frame),
            Addressee::LeaderLink => self.leader_is_answered(alloc, frame),
            Addressee::Helper => self.helper_hears(alloc, frame),
            Addressee::HelperLink => self.helper_is_ordered(alloc, frame),
        }
    }
}
