//! Does pieces of work and prints a checksum of each, so that a script can time them from outside. The words are pairs
//! of a piece's name and how often it is done.
#![tactic(auto)]

mod closings;
mod nodes;
mod parts;
mod passes;
mod products;
mod servers;
mod stores;
mod streams;
mod sums;
mod work;

use std::process::ExitCode;
use std::{env, io};
use work::Work;

const USAGE: u8 = 2;

const NO_MEMORY: u8 = 7;

fn usage(rt: &impl Print) -> io::Result<ExitCode> {
    println!(rt; "usage: express_bench (WORK TIMES)..")?;
    Ok(ExitCode::from(USAGE))
}

fn main(rt: HostRuntime) -> io::Result<ExitCode> {
    let mut pending = None;
    for word in env::args(&rt)?.skip(1) {
        let word = word.as_str();
        pending = match pending {
            None => {
                let Some(work) = Work::named(word) else {
                    return usage(&rt);
                };
                Some(work)
            }
            Some(work) => {
                let Ok(times) = word.parse::<u32>() else {
                    return usage(&rt);
                };
                let Ok(checksum) = work.checksum(rt.alloc(), times) else {
                    println!(rt; "no memory")?;
                    return Ok(ExitCode::from(NO_MEMORY));
                };
                println!(rt; "{work} {times} {checksum:032x}")?;
                None
            }
        };
    }
    if pending.is_some() {
        return usage(&rt);
    }
    Ok(ExitCode::SUCCESS)
}
