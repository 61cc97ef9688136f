//! Hands recorded frames to servers and clients, part by part: recordings on standard input, and the same lines with
//! our answers on standard output.
#![tactic(auto)]

mod answers;
mod beginning;
mod client;
mod crashes;
mod disk;
mod fault;
mod fields;
mod hidden;
mod kept;
mod parts;
mod plain;
mod records;
mod remembered;
mod scene;
mod served;
mod server;
mod texts;

use answers::print_all;
use std::io;
use std::process::ExitCode;

fn main(rt: HostRuntime) -> io::Result<ExitCode> {
    print_all(&rt)
}
