//! A client's requests are all worked off, in rounds.
use crate::state::State;
use express_words::NoMemory;
use std::alloc::Global;

impl State {
    ghost use Rattle.std.specs.Prelude.{◌≡◌, ◌<◌, length, is_none, OnOk};
    ghost use Rattle.run_rules.specs.Run.{frame_moves};
    ghost use Rattle.schedule_text.specs.declared.schedule.Header.{Header};
    ghost use Rattle.token_rules.specs.Driven.{drain_round_by, drained_by, finish_round_by, finished_by};
    ghost use Rattle.replay_world.specs.View.{run_in, Moves, Keeps};

    // The oldest outstanding command goes to the helper once more, and the helper's reply to the leader.
    fn drain_round(&mut self, alloc: Global) -> Result<(), NoMemory>
        ensures moved { OnOk result (Moves (drain_round_by frame_moves) self.old self.new) }
        ensures keeps { Keeps self.old self.new }
    {
        let number = self.pool.len();
        self.tick(alloc)?;
        self.deliver(alloc, number)?;
        self.deliver(alloc, number + 1)
    }

    // Until no command is outstanding. An audit takes two rounds, with the settle that follows it, any other command
    // one.
    fn drain(&mut self, alloc: Global) -> Result<(), NoMemory>
        ensures moved { OnOk result (Moves (drained_by frame_moves) self.old self.new) }
        ensures keeps { Keeps self.old self.new }
    {
        for _ in 0..2 * self.leader.outstanding() {
            if self.leader.outstanding() == 0 {
                return Ok(());
            }
            self.drain_round(alloc)?;
        }
        Ok(())
    }

    // The client's frame is sent and delivered, and what was last sent to the client since is handed to it.
    fn finish_round(&mut self, alloc: Global, lane: u16) -> Result<(), NoMemory>
        requires lane { lane < length self.old.askers.items }
        ensures moved { OnOk result (Moves (λ w. finish_round_by frame_moves w lane) self.old self.new) }
        ensures keeps { Keeps self.old self.new }
    {
        self.drain(alloc)?;
        let before = self.pool.len();
        self.send(alloc, lane)?;
        self.deliver(alloc, before)?;
        self.drain(alloc)?;
        self.hand_last(alloc, lane, before)
    }

    // Whether a client has no current request.
    fn is_idle(&self, lane: u16) -> bool
        requires lane { lane < length self.now.askers.items }
        ensures { (header : Header) → result ≡ is_none ((run_in header self.now).clients lane).current }
    {
        self.askers[usize::from(lane)].client.is_idle()
    }

    // How many of a client's requests wait.
    fn waiting(&self, lane: u16) -> usize
        requires lane { lane < length self.now.askers.items }
        ensures { (header : Header) → result ≡ length ((run_in header self.now).waiting lane) }
    {
        self.askers[usize::from(lane)].waiting.len()
    }

    /// Until the client has no current request. A request takes at most four rounds.
    pub fn finish(&mut self, alloc: Global, lane: u16) -> Result<(), NoMemory>
        requires lane { lane < length self.old.askers.items }
        ensures moved { OnOk result (Moves (λ w. finished_by frame_moves w lane) self.old self.new) }
        ensures keeps { Keeps self.old self.new }
    {
        for _ in 0..4 * (self.waiting(lane) as u128 + 1) {
            if self.is_idle(lane) {
                return Ok(());
            }
            self.finish_round(alloc, lane)?;
        }
        Ok(())
    }
}
