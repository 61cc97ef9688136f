//! The program: the real objects, handed to the top call.
#![tactic(auto)]

ghost use Rattle.std.specs.Prelude.{◌≡◌, ◌≢◌, [], ◌∷◌, ◌++◌, Contains, Some};
ghost use Rattle.desk_outside.specs.Calls.{Held};
ghost use Rattle.desk_words.specs.CommandLine.{AskSome, words_in};
ghost use Rattle.desk_run.specs.FolderSteps.{FolderSteps};
ghost use Rattle.desk_run.specs.Printing.{Prints, TellsMet};
ghost use Rattle.desk_run.specs.Quiet.{AskServers};
ghost use Rattle.desk_run.specs.Rests.{IsAtHome};
ghost use Rattle.desk_run.specs.Sends.{Sends};
ghost use Rattle.desk_run.specs.Statuses.{EndsAsAsked};
ghost use Rattle.desk_run.specs.Words.{DoneIfAsked};
ghost use Rattle.express_desk.specs.Missing.{status_without};
ghost use Rattle.express_desk.specs.Real.{real_calls, real_scene};

mod missing;

use desk_files::{DeskFolder, DeskPaths, PaperFiles, SystemClock, SystemFolder, SystemPapers};
use desk_outside::Hold;
use desk_run::{Around, run_desk};
use desk_words::{folder_of, proxy_of};
use express_outside::{
    Adapter, Direct, FileDisk, JournalFile, TcpNet, TcpPorts, random_seed, stand_in,
};
use express_words::outside::Counted;
use missing::{Missing, why_no_words};
use node_journal::Disk;
use socks_proxy::{ProxiedNet, Proxy, ProxyFault};
use std::env::VarError;
use std::io::{Printer, StdinLock};
use std::process::ExitCode;
use std::rt::Env;
use std::{env, io};

/// The desk's folder in the user's own, where the words name none.
const FOLDER: &str = ".express-desk";

/// What names the proxy, where the words name none.
const PROXY: &str = "EXPRESS_PROXY";

// The words after the program's name.
fn words_of<R: Env + AllocGlobal>(rt: &R) -> Result<Vec<String>, Missing> {
    let all = env::args(rt).map_err(|error| why_no_words(&error))?;
    all.skip(1).collect(rt.alloc()).map_err(|_| Missing::Memory)
}

// The paths of the desk in the user's own folder.
fn paths_at_home(rt: &HostRuntime) -> Result<DeskPaths, Missing> {
    let home = env::var(rt, "HOME").map_err(|_| Missing::Home)?;
    if home.is_empty() {
        return Err(Missing::Home);
    }
    let folder = format!(in rt.alloc(); "{home}/{FOLDER}").map_err(|_| Missing::Memory)?;
    DeskPaths::of(rt.alloc(), folder.as_str()).map_err(|_| Missing::Memory)
}

// The paths of the desk that the words name, and else of the one in the user's own folder.
fn paths_of(rt: &HostRuntime, words: &Vec<String>) -> Result<DeskPaths, Missing> {
    match folder_of(rt.alloc(), words) {
        Ok(Some(folder)) => DeskPaths::of(rt.alloc(), folder).map_err(|_| Missing::Memory),
        Ok(None) => paths_at_home(rt),
        Err(_) => Err(Missing::Memory),
    }
}

// The place of the proxy that EXPRESS_PROXY names, if it names one.
fn proxy_around(rt: &HostRuntime) -> Result<Option<String>, Missing> {
    match env::var(rt, PROXY) {
        Ok(place) => Ok(if place.is_empty() { None } else { Some(place) }),
        Err(VarError::NotPresent) => Ok(None),
        Err(VarError::NotUnicode) => Err(Missing::Proxy),
        Err(VarError::OutOfMemory) => Err(Missing::Memory),
    }
}

// The proxy that the words name, or else the one that stands in the environment, or else Tor's.
fn proxy_in<'a>(
    rt: &HostRuntime,
    words: &'a Vec<String>,
    around: &'a Option<String>,
) -> Result<Proxy<'a>, Missing> {
    match proxy_of(rt.alloc(), words) {
        Ok(Some(place)) => Ok(Proxy::Named(place)),
        Ok(None) => Ok(match around {
            Some(place) => Proxy::Named(place.as_str()),
            None => Proxy::Tor,
        }),
        Err(_) => Err(Missing::Memory),
    }
}

// What is drawn for the user names of dials through a proxy: half of a seed.
fn names_of(seed: &[u8; 32]) -> [u8; 16] {
    let mut drawn = [0; 16];
    drawn.copy_from_slice(&seed[..16]);
    drawn
}

// Tells why a proxy gave no connection, where one was asked for.
fn tell_proxy(rt: &HostRuntime, why: Option<ProxyFault>) {
    if let Some(why) = why {
        let _told = println!(rt; "{why}");
    }
}

/// What the system has around a desk.
type RealDesk<'a> = Around<
    Adapter<Direct<StdinLock<'a>>>,
    Adapter<Direct<Printer<'a, HostRuntime>>>,
    ProxiedNet<'a, TcpNet<TcpPorts<HostRuntime>>>,
    DeskFolder<SystemFolder<'a>>,
    PaperFiles<SystemPapers<'a>>,
    SystemClock<'a>,
>;

// The top call over the system's own objects: what it promises, of what their calls answered.
fn run_here<'a>(
    rt: &HostRuntime,
    words: &Vec<String>,
    seed: &[u8; 32],
    around: &mut RealDesk<'a>,
) -> u8
    ensures ends { AskSome (words_in words.now) → EndsAsAsked (words_in words.now) result }
    ensures wrong { (AskSome (words_in words.now) → ⊥) → Contains (2 ∷ 1 ∷ []) result }
    ensures rests { (AskSome (words_in words.now) → ⊥) → IsAtHome around.old around.new }
    ensures folder_rests { (AskSome (words_in words.now) → ⊥) → around.new.folder ≡ around.old.folder }
    ensures in_use { result ≡ 4 → IsAtHome around.old around.new }
    // Another process had the folder: that is all that it was asked.
    ensures held { result ≡ 4 → around.new.folder.log ≡ around.old.folder.log ++ Held (Some Hold.InUse) ∷ [] }
    ensures quiet { (AskServers (words_in words.now) → ⊥) → around.new.net ≡ around.old.net }
    ensures done { DoneIfAsked ⟦<FileDisk<JournalFile<'a>> as Disk>⟧.disk
        ⟦<FileDisk<JournalFile<'a>> as Counted>⟧.seen (words_in words.now) result
        (real_scene around.old.out.inner.taken (real_calls around.old.net) around.old.folder.log)
        (real_scene around.new.out.inner.taken (real_calls around.new.net) around.new.folder.log) }
    ensures met { result ≡ 5
        → Prints TellsMet (Some around.old.out.inner.taken) (Some around.new.out.inner.taken) }
    ensures sink { result ≢ 1 → around.new.out.faults ≡ around.old.out.faults }
    ensures net { result ≢ 1 → around.new.net.faults ≡ around.old.net.faults }
    ensures sends { Sends ⟦<FileDisk<JournalFile<'a>> as Disk>⟧.disk
        ⟦<FileDisk<JournalFile<'a>> as Counted>⟧.seen
        (real_calls around.old.net) (real_calls around.new.net) }
    ensures steps { FolderSteps ⟦<FileDisk<JournalFile<'a>> as Disk>⟧.disk
        ⟦<FileDisk<JournalFile<'a>> as Counted>⟧.seen
        (Some around.old.folder.log) (Some around.new.folder.log) }
{
    run_desk(rt.alloc(), words, seed, around)
}

// Hands the real objects to the top call, and answers its status.
fn work(
    rt: &HostRuntime,
    words: &Vec<String>,
    seeds: &[[u8; 32]; 2],
    paths: &DeskPaths,
    proxy: Proxy<'_>,
) -> u8 {
    let ports = TcpNet::new(TcpPorts::new(*rt));
    let mut around = Around {
        input: Adapter::new(Direct::new(rt.reader())),
        out: Adapter::new(Direct::new(io::writer(rt))),
        net: ProxiedNet::new(rt.alloc(), ports, proxy, &names_of(&seeds[1])),
        folder: DeskFolder::new(SystemFolder::new(rt, paths)),
        papers: PaperFiles::new(SystemPapers::new(rt)),
        clock: SystemClock::new(rt),
    };
    let status = run_here(rt, words, &seeds[0], &mut around);
    tell_proxy(rt, around.net.why());
    status
}

fn seed_of(rt: &HostRuntime) -> Result<[u8; 32], Missing> {
    random_seed(rt).map_err(|_| Missing::Seed)
}

// The status of the top call, or what is missing before it.
fn start(rt: &HostRuntime) -> Result<u8, Missing> {
    let words = words_of(rt)?;
    let paths = paths_of(rt, &words)?;
    let place = proxy_around(rt)?;
    let proxy = proxy_in(rt, &words, &place)?;
    let seeds = [seed_of(rt)?, seed_of(rt)?];
    Ok(work(rt, &words, &seeds, &paths, proxy))
}

// The same, with something in the place of standard input, output and error where these are closed.
fn begin(rt: &HostRuntime) -> Result<u8, Missing> {
    let held = stand_in(rt).map_err(|_| Missing::Null)?;
    let started = start(rt);
    drop(held);
    started
}

// Tells what is missing, where it can be told.
fn tell(rt: &HostRuntime, missing: Missing) -> u8
    ensures { result ≡ status_without missing }
{
    let _told = println!(rt; "{missing}");
    missing.status()
}

fn main(rt: HostRuntime) -> ExitCode {
    let status = match begin(&rt) {
        Ok(status) => status,
        Err(missing) => tell(&rt, missing),
    };
    ExitCode::from(status)
}
