//! The program: the real objects, handed to the top call.
#![tactic(auto)]

ghost use Rattle.std.specs.Prelude.{◌≡◌, ◌≢◌, [], ◌∷◌, Contains, IfErr, MatchResult, map, string_bytes};
ghost use Rattle.std.specs.IoError.{error_kind};
ghost use Rattle.std.specs.Process.{exit_status};
ghost use Rattle.express_words.specs.Causes.{Rose};
ghost use Rattle.express_cli.specs.Around.{FailedLast};
ghost use Rattle.express_cli.specs.CommandLine.{AskSome, AskTalk};
ghost use Rattle.express_cli.specs.Keeping.{AsksOther, Keeps, OtherRan};
ghost use Rattle.express_cli.specs.Laws.{Laws};
ghost use Rattle.express.specs.Real.{real_around, real_streams, stream_seen};

use express_cli::run_kept;
use express_outside::{
    Adapter, Direct, FileDisk, JournalFile, TcpNet, TcpPorts, random_seed, stand_in,
};
use express_words::outside::Counted;
use node_journal::Disk;
use std::io::{ErrorKind, Printer, StdinLock};
use std::process::ExitCode;
use std::rt::Env;
use std::{env, io};

/// The journal of a server under `keep`, in the folder that the program runs in.
const JOURNAL: &str = "express.journal";

/// The status where memory is wanting before the top call.
const OUT_OF_MEMORY: u8 = 7;

/// The status where no seed can be had, or no file that stands in for a closed input or output.
const NO_SEED: u8 = 9;

/// The status where the words can't be had for another cause.
const NO_WORDS: u8 = 14;

// The status where the words can't be had for this reason.
fn status_without_words(error: &io::Error) -> u8
    ensures memory { error_kind error.now ≡ ErrorKind.OutOfMemory → result ≡ 7 }
    ensures other { error_kind error.now ≢ ErrorKind.OutOfMemory → result ≡ 14 }
    ensures either { Contains (7 ∷ 14 ∷ []) result }
{
    if error.kind() == ErrorKind::OutOfMemory {
        OUT_OF_MEMORY
    } else {
        NO_WORDS
    }
}

// The words after the program's name, or the status without them.
fn words_of<R: Env + AllocGlobal>(rt: &R) -> Result<Vec<String>, u8>
    ensures { IfErr result (λ status. Contains (7 ∷ 14 ∷ []) status) }
{
    let all = env::args(rt).map_err(|error| status_without_words(&error))?;
    all.skip(1).collect(rt.alloc()).map_err(|_| OUT_OF_MEMORY)
}

/// The system's own objects around a run.
#[derive(Drop)]
struct Real<'a> {
    input: Adapter<Direct<StdinLock<'a>>>,
    out: Adapter<Direct<Printer<'a, HostRuntime>>>,
    net: TcpNet<TcpPorts<HostRuntime>>,
}

// The top call over the system's own objects: what it promises, of what their calls answered.
fn run_here<'a>(
    rt: &HostRuntime,
    words: &Vec<String>,
    seed: &[u8; 32],
    real: &mut Real<'a>,
    disk: FileDisk<JournalFile<'a>>,
) -> (u8, FileDisk<JournalFile<'a>>)
    ensures ran { OtherRan words.now.items
        (real_streams real.old.input real.new.input real.old.out real.new.out)
        (real_around seed.now real.old.net real.new.net) result.0 }
    ensures disk_rests { AsksOther words.now.items → result.1 ≡ disk.entry }
    ensures input_rests { AsksOther words.now.items
        → (AskSome (map string_bytes words.now.items) → ⊥) → real.new.input ≡ real.old.input }
    ensures net_rests { AsksOther words.now.items
        → (AskTalk (map string_bytes words.now.items) → ⊥) → real.new.net ≡ real.old.net }
    ensures net_waits { AsksOther words.now.items
        → Contains (2 ∷ 3 ∷ 4 ∷ 8 ∷ []) result.0 → real.new.net ≡ real.old.net }
    ensures laws { Laws }
    ensures kept { Keeps words.now.items ⟦<FileDisk<JournalFile<'a>> as Disk>⟧.disk
        ⟦<FileDisk<JournalFile<'a>> as Counted>⟧.seen
        (real_streams real.old.input real.new.input real.old.out real.new.out)
        (real_around seed.now real.old.net real.new.net) disk.entry result }
    ensures last_take { result.0 ≡ 4 → FailedLast stream_seen real.old.input real.new.input }
    ensures disk_fault { result.0 ≡ 10 → Rose disk.entry.faults result.1.faults }
    ensures statuses { Contains (0 ∷ 2 ∷ 3 ∷ 4 ∷ 5 ∷ 6 ∷ 7 ∷ 8 ∷ 10 ∷ 11 ∷ 12 ∷ 13 ∷ []) result.0 }
{
    let Real { input, out, net } = real;
    run_kept(rt.alloc(), words, seed, input, out, net, disk)
}

// Hands the real objects to the top call, and answers its status.
fn work(rt: &HostRuntime, words: &Vec<String>, seed: &[u8; 32]) -> u8 {
    let mut real = Real {
        input: Adapter::new(Direct::new(rt.reader())),
        out: Adapter::new(Direct::new(io::writer(rt))),
        net: TcpNet::new(TcpPorts::new(*rt)),
    };
    let disk = FileDisk::new(JournalFile::new(rt, JOURNAL));
    let (status, _) = run_here(rt, words, seed, &mut real, disk);
    status
}

// The status of the top call, or that of what is missing before it.
fn start(rt: &HostRuntime) -> Result<u8, u8>
    ensures { IfErr result (λ status. Contains (7 ∷ 9 ∷ 14 ∷ []) status) }
{
    let words = words_of(rt)?;
    let seed = random_seed(rt).map_err(|_| NO_SEED)?;
    Ok(work(rt, &words, &seed))
}

// The same, with something in the place of standard input, output and error where these are closed.
fn begin(rt: &HostRuntime) -> Result<u8, u8>
    ensures { IfErr result (λ status. Contains (7 ∷ 9 ∷ 14 ∷ []) status) }
{
    let held = stand_in(rt).map_err(|_| NO_SEED)?;
    let started = start(rt);
    drop(held);
    started
}

// What the program ends with: the status, wherever it was found.
fn exit_of(started: Result<u8, u8>) -> ExitCode
    ensures { MatchResult started (λ status. exit_status result ≡ status) (λ status. exit_status result ≡ status) }
{
    match started {
        Ok(status) | Err(status) => ExitCode::from(status),
    }
}

fn main(rt: HostRuntime) -> ExitCode {
    exit_of(begin(&rt))
}
