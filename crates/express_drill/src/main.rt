//! Drills a built program: two servers and three clients of it on loopback, whose printed lines and statuses are
//! compared with what they must be.
#![tactic(auto)]

mod drill;
mod fault;
mod order;
mod plan;
mod running;
mod step;

use drill::drill;
use express_outside::stand_in;
use fault::Fault;
use order::order_of;
use std::fmt::Display;
use std::process::{ExitCode, Processes};
use std::rt::{Clock, Env};
use step::Verdict;

const USAGE: &str = "usage: express_drill PROGRAM PORT";

/// The status where the words are no program and no port.
const NO_ORDER: u8 = 2;

/// The status where a line can't be printed.
const UNWRITTEN: u8 = 5;

// Prints a line, and answers the status that goes with it.
fn say<D: Display + Drop>(rt: &impl Print, line: D, status: u8) -> u8 {
    match rt.println(line) {
        Ok(()) => status,
        Err(_) => UNWRITTEN,
    }
}

// Drills as the words order, and answers the status of the program.
fn run<R: Print + Env + AllocGlobal + Processes + Clock>(rt: &R) -> Result<u8, Fault> {
    let Some(order) = order_of(rt)? else {
        return Ok(say(rt, USAGE, NO_ORDER));
    };
    let verdict = drill(rt, &order)?;
    Ok(say(rt, verdict, verdict.status()))
}

// The same, with something in the place of standard input, output and error where these are closed.
fn begin(rt: &HostRuntime) -> Result<u8, Fault> {
    let held = stand_in(rt)?;
    let ended = run(rt);
    drop(held);
    ended
}

fn main(rt: HostRuntime) -> ExitCode {
    match begin(&rt) {
        Ok(status) => ExitCode::from(status),
        Err(fault) => ExitCode::from(fault.status()),
    }
}
