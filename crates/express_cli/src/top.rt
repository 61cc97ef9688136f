//! The top call.
ghost use Rattle.std.specs.Prelude.{◌≡◌, ◌≢◌, ◌≤◌, ◌∷◌, [], Contains, map, string_bytes};
ghost use Rattle.express_cli.specs.CommandLine.{AskSome, AskTalk};
ghost use Rattle.express_cli.specs.Around.{FailedLast, over, streams};
ghost use Rattle.express_cli.specs.Ends.{Prints, WorkMay};
ghost use Rattle.express_cli.specs.Runs.{RunEnds, WaitsForNet};
ghost use Rattle.express_cli.specs.Ran.{Ran};
ghost use Rattle.express_cli.specs.Laws.{Laws};

use crate::End;
use crate::batch::batch;
use crate::cloak::cloak;
use crate::ends::status_of;
use crate::input::input_of;
use crate::mill::mill;
use crate::promises::laws;
use crate::replay::replay;
use crate::talk::talk;
use crate::texts::{OUT_OF_MEMORY, USAGE, say};
use crate::words::{Command, InputTask, Task, task_of};
use express_texts::{batch_is_read_exactly, game_is_read_exactly};
use express_words::outside::{Net, Sink, Source};
use schedule_text::read_exactly;
use std::alloc::Global;

// Does a command's work on the text of its input.
fn work<K: Sink>(alloc: Global, command: Command, text: &[u8], out: &mut K) -> End
    ensures ends { Prints (WorkMay command text.now)
        (K.seen out.old) (K.seen out.new) result }
{
    match command {
        Command::Replay => replay(alloc, text, out),
        Command::Batch => batch(alloc, text, out),
        Command::Cloak => cloak(alloc, text, out),
    }
}

// Does what the words ask for.
fn finish<S: Source, K: Sink, N: Net>(
    alloc: Global,
    words: &Vec<String>,
    seed: &[u8; 32],
    input: &mut S,
    out: &mut K,
    net: &mut N,
) -> End
    ensures ends { RunEnds (map string_bytes words.now.items)
        (streams S.seen K.seen input.old input.new out.old out.new)
        (over N.seen N.Conn.seen seed.now net.old net.new) result }
    ensures last_take { result ≡ End.ReadFault → FailedLast S.seen input.old input.new }
    // A fault of the input is told as that, and as nothing else.
    ensures source { result ≢ End.ReadFault → result ≢ End.WriteFault
        → (S.seen input.new).faults ≡ (S.seen input.old).faults }
    // The input is taken from only where the words ask for a command that works on it.
    ensures input_rests { (AskSome (map string_bytes words.now.items) → ⊥) → input.new ≡ input.old }
    // A call on the net is made only where the words ask for work over it.
    ensures net_rests { (AskTalk (map string_bytes words.now.items) → ⊥) → net.new ≡ net.old }
    ensures net_waits { WaitsForNet result → net.new ≡ net.old }
{
    match task_of(alloc, words) {
        Err(_) => say(out, OUT_OF_MEMORY, End::OutOfMemory),
        Ok(None) => say(out, USAGE, End::Usage),
        Ok(Some(Task::Mill(number))) => mill(alloc, number, out),
        Ok(Some(Task::OnInput(task))) => match input_of(alloc, input, out) {
            Ok(text) => match task {
                InputTask::Work(command) => work(alloc, command, text.as_slice(), out),
                InputTask::Net(command) => talk(alloc, command, text.as_slice(), seed, out, net),
            },
            Err(end) => end,
        },
    }
}

/// Does what the words ask for, and answers the status of the program.
///
/// The words are judged first. Then the input is read to its end, its first fault or byte 67,108,865, then judged,
/// then worked on; `mill` reads no input. The status is 0 where all is done, 2 for wrong words, 3 for a bad line, 4
/// for a fault of the input, 5 for a fault of the sink, 6 for a fault of the net, 7 for want of memory and 8 for an
/// input that is too long. `serve`, `client` and `carry` work over the net, and take `seed` for a server's draws and
/// for a client whose settings have none; the other commands use neither.
pub fn run<S: Source, K: Sink, N: Net>(
    alloc: Global,
    words: &Vec<String>,
    seed: &[u8; 32],
    input: &mut S,
    out: &mut K,
    net: &mut N,
) -> u8
    ensures ran { Ran (map string_bytes words.now.items)
        (streams S.seen K.seen input.old input.new out.old out.new)
        (over N.seen N.Conn.seen seed.now net.old net.new) result }
    ensures laws { Laws }
    // Nothing is taken from the input after a fault of it.
    ensures last_take { result ≡ 4 → FailedLast S.seen input.old input.new }
    // The input is taken from only where the words ask for a command that works on it.
    ensures input_rests { (AskSome (map string_bytes words.now.items) → ⊥) → input.new ≡ input.old }
    // A call on the net is made only where the words ask for work over it, and after the settings were read.
    ensures net_rests { (AskTalk (map string_bytes words.now.items) → ⊥) → net.new ≡ net.old }
    ensures net_waits { Contains (2 ∷ 3 ∷ 4 ∷ 8 ∷ []) result → net.new ≡ net.old }
{
    read_exactly();
    batch_is_read_exactly();
    game_is_read_exactly();
    laws();
    status_of(finish(alloc, words, seed, input, out, net))
}
