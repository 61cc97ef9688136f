//! A server for many: the program, over the system's own files, sockets and clock.
#![tactic(auto)]

mod console;
mod keys;
mod logs;
mod running;
mod status_door;
mod tasks;
mod watch;

use console::Console;
use express_outside::stand_in;
use server_words::{Stop, asked_of};
use std::process::ExitCode;
use std::rt::Env;
use std::{env, io};

// The words after the program's name.
fn words_of<R: Env + AllocGlobal>(rt: &R) -> Result<Vec<String>, Stop> {
    let all = env::args(rt).map_err(|_| Stop::Words)?;
    all.skip(1).collect(rt.alloc()).map_err(|_| Stop::NoMemory)
}

// Does what the words ask for.
fn work(rt: &HostRuntime) -> Result<(), Stop> {
    let words = words_of(rt)?;
    match asked_of(rt.alloc(), &words)? {
        Some(task) => tasks::do_task(rt, &task),
        None => Err(Stop::Words),
    }
}

// The same, with something in the place of standard input, output and error where these are closed.
fn begin(rt: &HostRuntime) -> Result<(), Stop> {
    let held = stand_in(rt).map_err(|_| Stop::Unopened)?;
    let done = work(rt);
    drop(held);
    done
}

// Tells why the program ends, where it can be told at once: a server whose log failed doesn't wait for a reader.
fn tell(rt: &HostRuntime, stop: &Stop) -> u8 {
    if let (Ok(mut console), Ok(line)) = (Console::open(rt), format!(in rt.alloc(); "{stop}")) {
        console.print(rt, line.as_str());
    }
    stop.status()
}

fn main(rt: HostRuntime) -> ExitCode {
    let status = match begin(&rt) {
        Ok(()) => 0,
        Err(stop) => tell(&rt, &stop),
    };
    ExitCode::from(status)
}
