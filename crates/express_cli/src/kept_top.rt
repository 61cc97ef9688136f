//! The top call with a journal.
ghost use Rattle.std.specs.Prelude.{◌≡◌, ◌≢◌, ◌≤◌, ◌⊎◌, ◌↔◌, [], ◌∷◌, Contains, IsTrue, codes, map, string_bytes};
ghost use Rattle.express_words.specs.Causes.{Rose};
ghost use Rattle.express_cli.specs.Around.{FailedLast, over, streams};
ghost use Rattle.express_cli.specs.CommandLine.{AskSome, AskTalk};
ghost use Rattle.express_cli.specs.Ends.{DiskCounts};
ghost use Rattle.express_cli.specs.Laws.{Laws};
ghost use Rattle.express_cli.specs.Keeping.{AsksKeep, AsksOther, InputCounts, KeepEnds, Keeps, OtherRan, keeper};
ghost use Rattle.express_cli.specs.Talking.{Settled};

use crate::door::listen_and_serve;
use crate::ends::{End, status_of};
use crate::input::input_of;
use crate::keep_faults::tell_unopened;
use crate::promises::laws;
use crate::texts::{OUT_OF_MEMORY, say, say_fault};
use crate::top::run;
use express_words::outside::{Net, Sink, Source};
use node_journal::Disk;
use node_serve::open_kept;
use settings_text::{ServeSettings, read_serve};
use std::alloc::Global;
use wire_frames::Gather;

// Whether the words are the one word `keep`.
fn asks_keep(words: &Vec<String>) -> bool
    ensures { IsTrue result ↔ AsksKeep (map string_bytes words.now.items) }
{
    match words.as_slice() {
        [word] => word.as_str() == "keep",
        _ => false,
    }
}

// Opens the server of the settings, or the one of the journal on the disk, and serves. The disk is handed back.
fn keep_by<K: Sink, N: Net, D: Disk>(
    alloc: Global,
    settings: &ServeSettings,
    seed: &[u8; 32],
    out: &mut K,
    net: &mut N,
    disk: D,
) -> (End, D)
    ensures ends { Settled (keeper D.disk disk result.1) settings.now
        (DiskCounts result.0 (D.seen disk).faults (D.seen result.1).faults)
        (over N.seen N.Conn.seen seed.now net.old net.new) (K.seen out.old) (K.seen out.new) result.0 }
{
    let Ok(mut gather) = Gather::open(alloc) else {
        return (say(out, OUT_OF_MEMORY, End::OutOfMemory), disk);
    };
    match open_kept(alloc, settings, seed, disk) {
        Ok(mut kept) => {
            let end = listen_and_serve(alloc, settings, &mut kept, &mut gather, out, net);
            (end, kept.into_disk())
        }
        Err((fault, disk)) => (tell_unopened(alloc, out, fault), disk),
    }
}

// Reads the settings of a server with a journal, opens it on the disk, and serves as many connections as they say.
// The disk is handed back.
fn keep<S: Source, K: Sink, N: Net, D: Disk>(
    alloc: Global,
    seed: &[u8; 32],
    input: &mut S,
    out: &mut K,
    net: &mut N,
    disk: D,
) -> (End, D)
    ensures ends { KeepEnds D.disk D.seen (streams S.seen K.seen input.old input.new out.old out.new)
        (over N.seen N.Conn.seen seed.now net.old net.new) disk result.1 result.0 }
    ensures input { InputCounts result.0 (streams S.seen K.seen input.old input.new out.old out.new) }
    ensures last_take { result.0 ≡ End.ReadFault → FailedLast S.seen input.old input.new }
{
    match input_of(alloc, input, out) {
        Ok(text) => match read_serve(alloc, text.as_slice()) {
            Ok(settings) => keep_by(alloc, &settings, seed, out, net, disk),
            Err(fault) => (say_fault(alloc, out, fault), disk),
        },
        Err(end) => (end, disk),
    }
}

/// Does what the words ask for, as `run` does, and answers the status of the program and the disk. For the one word
/// `keep` it is `serve` with a journal on the disk: each frame is on the disk before its step, no answer goes out
/// before that, and a server that was stopped at any moment goes on where its journal ends.
///
/// With `keep` the status may also be 10 where the disk failed, 11 where the journal, of at most 2^30 bytes, has no
/// room for a frame, 12 where its record at some offset is damaged and 13 where a record isn't one that a server
/// writes; each ends the run.
pub fn run_kept<S: Source, K: Sink, N: Net, D: Disk>(
    alloc: Global,
    words: &Vec<String>,
    seed: &[u8; 32],
    input: &mut S,
    out: &mut K,
    net: &mut N,
    disk: D,
) -> (u8, D)
    // For all other words it is `run`, and no call is made on the disk.
    ensures ran { OtherRan words.now.items
        (streams S.seen K.seen input.old input.new out.old out.new)
        (over N.seen N.Conn.seen seed.now net.old net.new) result.0 }
    ensures disk_rests { AsksOther words.now.items → result.1 ≡ disk }
    ensures input_rests { AsksOther words.now.items
        → (AskSome (map string_bytes words.now.items) → ⊥) → input.new ≡ input.old }
    ensures net_rests { AsksOther words.now.items
        → (AskTalk (map string_bytes words.now.items) → ⊥) → net.new ≡ net.old }
    ensures net_waits { AsksOther words.now.items
        → Contains (2 ∷ 3 ∷ 4 ∷ 8 ∷ []) result.0 → net.new ≡ net.old }
    ensures laws { Laws }
    ensures kept { Keeps words.now.items D.disk D.seen
        (streams S.seen K.seen input.old input.new out.old out.new)
        (over N.seen N.Conn.seen seed.now net.old net.new) disk result }
    // Nothing is taken from the input after a fault of it.
    ensures last_take { result.0 ≡ 4 → FailedLast S.seen input.old input.new }
    // The disk failed only where its count rose.
    ensures disk_fault { result.0 ≡ 10 → Rose (D.seen disk).faults (D.seen result.1).faults }
    ensures statuses { Contains (0 ∷ 2 ∷ 3 ∷ 4 ∷ 5 ∷ 6 ∷ 7 ∷ 8 ∷ 10 ∷ 11 ∷ 12 ∷ 13 ∷ []) result.0 }
{
    laws();
    if asks_keep(words) {
        let (end, disk) = keep(alloc, seed, input, out, net, disk);
        (status_of(end), disk)
    } else {
        (run(alloc, words, seed, input, out, net), disk)
    }
}
