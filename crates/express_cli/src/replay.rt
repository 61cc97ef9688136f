//! Replays a schedule.
ghost use Rattle.std.specs.Prelude.{◌≡◌, ◌≢◌, ◌≤◌, [], IfOk, OnOk};
ghost use Rattle.schedule_text.specs.Rules.{KeepsRules};
ghost use Rattle.replay_world.specs.Played.{output_of, played, IsWhole};
ghost use Rattle.express_cli.specs.Ends.{Prints, SaidOrWants, WorkMay};
ghost use Rattle.express_cli.specs.declared.words.Command.TheVariants.{Replay};

use crate::End;
use crate::texts::{OUT_OF_MEMORY, say, say_bad_line};
use express_words::NoMemory;
use express_words::outside::Sink;
use replay_world::{PutFault, World};
use schedule_text::{ReadFault, Schedule, read};
use std::alloc::Global;

// Lets all events of a schedule happen in a world that was just opened.
fn play(alloc: Global, schedule: &Schedule, world: &mut World) -> Result<(), NoMemory>
    requires rules { KeepsRules schedule.now }
    requires opened { IsWhole world.old }
    requires fresh { played world.old ≡ record { header = schedule.now.header; events = [] } }
    ensures whole { OnOk result (IsWhole world.new) }
    ensures played { OnOk result (played world.new ≡ schedule.now) }
{
    for event in schedule.events.as_slice() {
        world.event(alloc, event)?;
    }
    Ok(())
}

/// The world after all events of a schedule.
pub fn world_after(alloc: Global, schedule: &Schedule) -> Result<World, NoMemory>
    requires { KeepsRules schedule.now }
    ensures whole { IfOk result (λ world. IsWhole world) }
    ensures played { IfOk result (λ world. played world ≡ schedule.now) }
{
    let mut world = World::open(alloc, &schedule.header)?;
    match play(alloc, schedule, &mut world) {
        Ok(()) => Ok(world),
        Err(fault) => {
            drop(world);
            Err(fault)
        }
    }
}

// Writes the text of a world.
#[tactic(auto, using(crate::proofs::Writing::said))]
fn put_world<K: Sink>(alloc: Global, world: &World, out: &mut K) -> End
    requires { IsWhole world.now }
    ensures ends { Prints (SaidOrWants End.Done (output_of (played world.now)))
        (K.seen out.old) (K.seen out.new) result }
{
    match world.put(alloc, out) {
        Ok(()) => End::Done,
        Err(PutFault::Failed) => End::WriteFault,
        Err(PutFault::NoMemory) => say(out, OUT_OF_MEMORY, End::OutOfMemory),
    }
}

/// Replays the schedule that the text spells.
#[tactic(auto, using(crate::proofs::Writing::said))]
pub fn replay<K: Sink>(alloc: Global, text: &[u8], out: &mut K) -> End
    ensures ends { Prints (WorkMay Replay text.now) (K.seen out.old) (K.seen out.new) result }
{
    let schedule = match read(alloc, text) {
        Ok(schedule) => schedule,
        Err(ReadFault::BadLine(line)) => return say_bad_line(alloc, out, line),
        Err(ReadFault::NoMemory) => return say(out, OUT_OF_MEMORY, End::OutOfMemory),
    };
    match world_after(alloc, &schedule) {
        Ok(world) => {
            let end = put_world(alloc, &world, out);
            drop(world);
            end
        }
        Err(_) => say(out, OUT_OF_MEMORY, End::OutOfMemory),
    }
}
