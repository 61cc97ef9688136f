//! Frames come to the helper.
ghost use Rattle.std.specs.Prelude.{◌≡◌, ◌≤◌, [], ◌∷◌, ◌++◌, length, OnOk};
ghost use Rattle.frame_rules.specs.Spelling.{spelling};
ghost use Rattle.frame_rules.specs.Room.{HasRoom};
ghost use Rattle.run_rules.specs.Letters.{letter, ToClient};
ghost use Rattle.step_rules.specs.HelperClients.{on_client};
ghost use Rattle.step_rules.specs.HelperCommands.{on_link_bytes};
ghost use Rattle.replay_world.specs.Parts.{journal_in, pool_in};
ghost use Rattle.replay_world.specs.Posts.{noted, replied};

use crate::entries::{journal_line, note};
use crate::lane::lane_in;
use crate::lines::JournalLine;
use crate::pool::{Addressee, Letter, post};
use express_words::NoMemory;
use helper_core::{Helper, LinkTurn, carry_command};
use std::alloc::Global;

/// A client's frame: the helper's reply goes into the pool.
pub fn frame_comes(
    alloc: Global,
    helper: &mut Helper,
    pool: &mut Vec<Letter>,
    frame: &[u8],
    out: &mut [u8],
) -> Result<(), NoMemory>
    requires room { HasRoom out.old }
    ensures helper { helper.new ≡ (on_client helper.old frame.now).helper }
    ensures pool { OnOk result (pool_in pool.new.items ≡ pool_in pool.old.items
        ++ letter (ToClient (on_client helper.old frame.now).reply.lane) (spelling (on_client helper.old frame.now).reply) ∷ []) }
    ensures settings { helper.new.server.settings ≡ helper.old.server.settings }
{
    let length = helper.on_client(frame, out);
    let reply = &out[..length];
    post(alloc, pool, Addressee::Client(lane_in(reply)), reply)
}

/// A command of the leader: the reply goes into the pool, and a command that is carried out now into the journal.
pub fn command_comes(
    alloc: Global,
    helper: &mut Helper,
    journal: &mut Vec<JournalLine>,
    pool: &mut Vec<Letter>,
    frame: &[u8],
    out: &mut [u8],
) -> Result<(), NoMemory>
    requires room { HasRoom out.old }
    ensures helper { helper.new ≡ (on_link_bytes helper.old frame.now).helper }
    ensures journal { OnOk result
        (journal_in journal.new.items ≡ journal_in journal.old.items ++ noted frame.now
        (on_link_bytes helper.old frame.now).answer) }
    ensures pool { OnOk result (pool_in pool.new.items ≡ pool_in pool.old.items ++ replied
        (on_link_bytes helper.old frame.now).answer) }
    ensures settings { helper.new.server.settings ≡ helper.old.server.settings }
{
    match carry_command(helper, frame, out) {
        LinkTurn::Ignored => Ok(()),
        LinkTurn::Repeated(length) => post(alloc, pool, Addressee::LeaderLink, &out[..length]),
        LinkTurn::Carried(length) => {
            let reply = &out[..length];
            note(journal, journal_line(frame, reply))?;
            post(alloc, pool, Addressee::LeaderLink, reply)
        }
    }
}
