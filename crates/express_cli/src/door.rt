//! A server at its door: it listens, tells so, serves, and tells what came of it.
ghost use Rattle.std.specs.Prelude.{◌≡◌, ◌≢◌, ◌≤◌, ◌++◌, ℕ, List, [], Err, IfOk, codes, string_bytes};
ghost use Rattle.node_restart.specs.Frames.{Handed};
ghost use Rattle.node_serve.specs.Moved.{moved, shown};
ghost use Rattle.node_serve.specs.Tallies.{tally_text};
ghost use Rattle.express_cli.specs.Around.{over};
ghost use Rattle.express_cli.specs.Door.{EndsAtFirst, HaltCounts, Served, ServedSays, doorway_of};
ghost use Rattle.express_cli.specs.Ends.{DiskCounts, Prints};
ghost use Rattle.express_cli.specs.Talking.{DoorEnds};
ghost use Rattle.express_cli.specs.declared.ends.End.{End as Ends};

use crate::ends::End;
use crate::texts::{LISTENING, NET_FAULT, say, say_line};
use express_words::outside::{Net, Sink};
use node_serve::{Halt, Logged, Tally, host};
use settings_text::ServeSettings;
use std::alloc::{AllocError, Global};
use wire_frames::Gather;

/// A server that can tell why it ended early.
pub(crate) trait TellsFaults: Logged {
    /// Its log hasn't failed.
    ghost whole: { Self → Type 0 };

    /// What a log refuses a frame for that hadn't failed.
    ghost first: { Self.Fault → Type 0 };

    /// What is told of a fault, and the end of the run by it.
    ghost tells: { Self.Fault → Ends → List ℕ → Type 0 };

    /// Tells why it ended before it had served all its connections. A log may refuse nothing, so its fault isn't told
    /// by a call of its own.
    fn tell_halt<K: Sink>(alloc: Global, out: &mut K, halt: Halt<Self::Fault>) -> End
        requires first { EndsAtFirst first halt }
        ensures tells { Prints (ServedSays tells (Err halt)) (K.seen out.old) (K.seen out.new) result }
        ensures counts { (before now : ℕ) → HaltCounts Self.rises halt before now → DiskCounts result before now };

    /// Where a log hadn't failed, its first fault is one of those.
    ghost stops_first: { (a b : Self) (taken : List Handed) (refused : Handed) (why : Self.Fault) → whole a
        → Self.log.stops a b taken refused why → first why };
}

// The line that tells how many connections had each answer.
fn tally_line(alloc: Global, tally: Tally) -> Result<String, AllocError>
    ensures { IfOk result (λ text. string_bytes text ≡ tally_text tally ++ codes "\n") }
{
    format!(in alloc; "{tally}\n")
}

// Serves the connections of the settings at the open door, and tells what came of it.
fn serve_all<S: TellsFaults, K: Sink, N: Net>(
    alloc: Global,
    settings: &ServeSettings,
    server: &mut S,
    gather: &mut Gather,
    out: &mut K,
    net: &mut N,
) -> End
    requires whole { S.whole server.old }
    ensures tells { Prints (Served S.log S.tells settings.now
        (doorway_of (over N.seen N.Conn.seen [] net.old net.new) server.old server.new))
        (K.seen out.old) (K.seen out.new) result }
    ensures counts { DiskCounts result (S.failures server.old) (S.failures server.new) }
{
    let peer = settings.peer.as_str();
    match host(server, peer, gather, settings.connections, net) {
        Ok(tally) => say_line(out, tally_line(alloc, tally), End::Done),
        Err(stop) => S::tell_halt(alloc, out, stop.halt),
    }
}

/// Opens the door of the settings, says that the server listens, and serves as many connections as they say.
pub(crate) fn listen_and_serve<S: TellsFaults, K: Sink, N: Net>(
    alloc: Global,
    settings: &ServeSettings,
    server: &mut S,
    gather: &mut Gather,
    out: &mut K,
    net: &mut N,
) -> End
    requires whole { S.whole server.old }
    ensures ends { DoorEnds S.log S.tells settings.now (over N.seen N.Conn.seen [] net.old net.new)
        (moved server.old server.new) (DiskCounts result (S.failures server.old) (S.failures server.new))
        (shown K.seen out.old out.new) result }
{
    match net.listen(settings.listen.as_str()) {
        Ok(()) => match out.put(LISTENING.as_bytes()) {
            Ok(()) => serve_all(alloc, settings, server, gather, out, net),
            Err(_) => End::WriteFault,
        },
        Err(_) => say(out, NET_FAULT, End::NetFault),
    }
}
