//! The work of a command over a net.
ghost use Rattle.std.specs.Prelude.{◌≡◌, ◌≢◌, ◌≤◌, ◌⊎◌, Err, List, ℕ};
ghost use Rattle.express_cli.specs.Around.{over};
ghost use Rattle.express_cli.specs.Door.{HaltCounts, NeverMay, ServedSays};
ghost use Rattle.express_cli.specs.Ends.{DiskCounts, Prints};
ghost use Rattle.express_cli.specs.Runs.{WaitsForNet};
ghost use Rattle.express_cli.specs.Talking.{SaysRun, Settled, TalkEnds, end_by, server};

use crate::door::{TellsFaults, listen_and_serve};
use crate::ends::End;
use crate::texts::{NET_FAULT, OUT_OF_MEMORY, say, say_fault};
use crate::words::NetCommand;
use client_run::{Ran, RunEnd, Untold, run_carry, run_client};
use express_words::outside::{Net, Sink};
use node_serve::{Halt, Never, Node, open_node};
use settings_text::{ServeSettings, read_carry, read_client, read_serve};
use std::alloc::Global;
use wire_frames::Gather;

// A node has no log that could refuse a frame.
impl TellsFaults for Node {
    ghost whole = { λ node. Unit {0} };

    ghost first = { λ why. ⊥ };

    ghost tells = { NeverMay };

    #[tactic(auto, using(crate::proofs::CountLaws::told_counts))]
    fn tell_halt<K: Sink>(_alloc: Global, out: &mut K, halt: Halt<Never>) -> End
        ensures tells { Prints (ServedSays NeverMay (Err halt)) (K.seen out.old) (K.seen out.new) result }
        ensures counts { (before now : ℕ) → HaltCounts (λ why a b. ⊥) halt before now → DiskCounts result before now }
    {
        match halt {
            Halt::Door => say(out, NET_FAULT, End::NetFault),
            Halt::Log(fault) => match fault {},
        }
    }

    ghost stops_first = { λ a b taken refused why whole stops. stops };
}

// Is the server of the settings, until it has served as many connections as they say. Tells that it listens, and at
// the end how many connections had each answer.
fn serve<K: Sink, N: Net>(
    alloc: Global,
    settings: &ServeSettings,
    seed: &[u8; 32],
    out: &mut K,
    net: &mut N,
) -> End
    ensures ends { Settled server settings.now (Unit {0})
        (over N.seen N.Conn.seen seed.now net.old net.new) (K.seen out.old) (K.seen out.new) result }
    ensures waits { WaitsForNet result → ⊥ }
{
    let Ok(mut gather) = Gather::open(alloc) else {
        return say(out, OUT_OF_MEMORY, End::OutOfMemory);
    };
    match open_node(alloc, settings, seed) {
        Ok(mut node) => {
            let end = listen_and_serve(alloc, settings, &mut node, &mut gather, out, net);
            drop(node);
            end
        }
        Err(_) => say(out, OUT_OF_MEMORY, End::OutOfMemory),
    }
}

fn end_by(end: RunEnd) -> End
    ensures by { result ≡ end_by end }
    ensures written { result ≢ End.WriteFault }
    ensures waits { WaitsForNet result → ⊥ }
{
    match end {
        RunEnd::Done => End::Done,
        RunEnd::NetFault => End::NetFault,
    }
}

// Prints the text of a run and comes to its end; or says that memory is wanting for the text that was next, unless
// the sink failed before. A fault of the sink ends it too.
fn say_run<K: Sink>(out: &mut K, run: Result<Ran, Untold>) -> End
    ensures says { SaysRun run (K.seen out.old) (K.seen out.new) result }
    ensures waits { WaitsForNet result → ⊥ }
{
    match run {
        Ok(ran) => say(out, ran.text.as_str(), end_by(ran.end)),
        Err(Untold::NoMemory) => say(out, OUT_OF_MEMORY, End::OutOfMemory),
        Err(Untold::Unwritten) => End::WriteFault,
    }
}

/// Does a command's work over the net, by the settings that the text spells: is a server, works a client's requests
/// off, or sends a file to its boxes or fetches one from them; and tells what came of it.
#[tactic(auto, using(crate::proofs::Writing::fault_reads))]
pub fn talk<K: Sink, N: Net>(
    alloc: Global,
    command: NetCommand,
    text: &[u8],
    seed: &[u8; 32],
    out: &mut K,
    net: &mut N,
) -> End
    ensures ends { TalkEnds command text.now
        (over N.seen N.Conn.seen seed.now net.old net.new) (K.seen out.old) (K.seen out.new) result }
    ensures waits { WaitsForNet result → net.new ≡ net.old }
    ensures reads { result ≢ End.ReadFault }
{
    match command {
        NetCommand::Serve => match read_serve(alloc, text) {
            Ok(settings) => serve(alloc, &settings, seed, out, net),
            Err(fault) => say_fault(alloc, out, fault),
        },
        NetCommand::Client => match read_client(alloc, text) {
            Ok(settings) => {
                let run = run_client(alloc, &settings, seed, out, net);
                say_run(out, run)
            }
            Err(fault) => say_fault(alloc, out, fault),
        },
        NetCommand::Carry => match read_carry(alloc, text) {
            Ok(settings) => {
                let run = run_carry(alloc, &settings, seed, out, net);
                say_run(out, run)
            }
            Err(fault) => say_fault(alloc, out, fault),
        },
    }
}
