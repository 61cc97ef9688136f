//! Frames of the pool that are noted for the output.
use crate::lines::Shown;
use crate::pool::letter_at;
use crate::state::State;
use express_words::{List, NoMemory};
use std::alloc::Global;

impl State {
    ghost use Rattle.std.specs.Prelude.{OnOk, slice_get};
    ghost use Rattle.run_rules.specs.Run.{shows};
    ghost use Rattle.replay_world.specs.View.{Moves, Keeps};

    /// The frame of this number is noted for the output, where there is one.
    pub fn show(&mut self, alloc: Global, number: u32) -> Result<(), NoMemory>
        ensures moved { OnOk result (Moves (λ w. shows w number (slice_get w.pool number)) self.old self.new) }
        ensures keeps { Keeps self.old self.new }
    {
        let bytes = match letter_at(number as usize, self.pool.as_slice()) {
            None => return Ok(()),
            Some(letter) => Vec::from_slice(alloc, letter.bytes.as_slice())?,
        };
        self.shown.push(Shown {
            number,
            bytes: List::from_vec(bytes),
        })?;
        Ok(())
    }
}
