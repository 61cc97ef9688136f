//! The words of the command line.
ghost use Rattle.std.specs.Prelude.{◌≡◌, ◌≢◌, IfOk, IfErr, Some, option_map, map, string_bytes, codes};
ghost use Rattle.clap.specs.Words.{app_of, kind_of};
ghost use Rattle.express_cli.specs.CommandLine.{express_app, value_of, AreRead, IsNamed, IsAsked};

use clap::error::ErrorKind;
use clap::{Arg, Error};
use express_words::NoMemory;
use std::alloc::{AllocError, Global};

/// What the program does with its input.
#[derive(Clone, Copy, Debug, PartialEq, Eq)]
pub enum Command {
    /// Replays a schedule.
    Replay,
    /// Judges pairs of closings.
    Batch,
    /// Shows that one server sees two writes alike.
    Cloak,
}

/// What the program does over a net, by the settings that are its input.
#[derive(Clone, Copy, Debug, PartialEq, Eq)]
pub enum NetCommand {
    /// Is one of the two servers.
    Serve,
    /// Works a client's requests off.
    Client,
    /// Sends a file to several boxes, or fetches one.
    Carry,
}

/// A task that reads the input to its end.
#[derive(Clone, Copy, Debug, PartialEq, Eq)]
pub enum InputTask {
    Work(Command),
    Net(NetCommand),
}

/// What the words ask for.
#[derive(Clone, Copy, Debug, PartialEq, Eq)]
pub enum Task {
    /// A task on the input.
    OnInput(InputTask),
    /// The mill of a number up to 5,000, which reads no input.
    Mill(u16),
}

// A required COMMAND and an optional NUMBER.
fn parser<'a>(alloc: Global) -> Result<clap::Command<'a>, AllocError>
    ensures { IfOk result (λ c. app_of c ≡ express_app) }
{
    let command_arg = Arg::new(alloc, "COMMAND").required(true);
    let number_arg = Arg::new(alloc, "NUMBER");
    let bare = clap::Command::new(alloc, "express")
        .no_binary_name(true)
        .disable_help_flag(true)
        .disable_version_flag(true);
    let with_command = bare.arg(command_arg)?;
    let whole = with_command.arg(number_arg)?;
    Ok(whole)
}

// The values of COMMAND and NUMBER.
fn values_of<'a>(
    alloc: Global,
    words: &'a Vec<String>,
) -> Result<(Option<&'a str>, Option<&'a str>), Error>
    ensures command { IfOk result (λ r. option_map (λ s. s.now) r.0
        ≡ value_of (codes "COMMAND") (map string_bytes words.entry.now.items)) }
    ensures number { IfOk result (λ r. option_map (λ s. s.now) r.1
        ≡ value_of (codes "NUMBER") (map string_bytes words.entry.now.items)) }
    ensures taken { IfOk result (λ r. AreRead (map string_bytes words.entry.now.items)) }
    ensures refused { IfErr result (λ e. kind_of e ≢ ErrorKind.OutOfMemory
        → AreRead (map string_bytes words.entry.now.items) → ⊥) }
{
    let command = parser(alloc)?;
    match command.try_get_matches_from(words.as_slice()) {
        Err(fault) => Err(fault),
        Ok(matches) => Ok((matches.get_str("COMMAND"), matches.get_str("NUMBER"))),
    }
}

// The mill of the number up to 5,000 whose decimal digits these are.
#[tactic(auto, using(crate::proofs::Asked::other_digits))]
fn mill_of(alloc: Global, text: &str) -> Result<Option<Task>, AllocError>
    ensures { IfOk result (IsNamed (Some (codes "mill")) (Some text.now)) }
{
    let number = match text.parse::<u16>() {
        Ok(number) if number <= 5000 => number,
        _ => return Ok(None),
    };
    let digits = format!(in alloc; "{number}")?;
    if digits.as_str() == text {
        Ok(Some(Task::Mill(number)))
    } else {
        Ok(None)
    }
}

// The task that these values name.
fn named(
    alloc: Global,
    command: Option<&str>,
    number: Option<&str>,
) -> Result<Option<Task>, AllocError>
    ensures { IfOk result (IsNamed (option_map (λ s. s.now) command.entry)
        (option_map (λ s. s.now) number.entry)) }
{
    match (command, number) {
        (Some("replay"), None) => Ok(Some(Task::OnInput(InputTask::Work(Command::Replay)))),
        (Some("batch"), None) => Ok(Some(Task::OnInput(InputTask::Work(Command::Batch)))),
        (Some("cloak"), None) => Ok(Some(Task::OnInput(InputTask::Work(Command::Cloak)))),
        (Some("serve"), None) => Ok(Some(Task::OnInput(InputTask::Net(NetCommand::Serve)))),
        (Some("client"), None) => Ok(Some(Task::OnInput(InputTask::Net(NetCommand::Client)))),
        (Some("carry"), None) => Ok(Some(Task::OnInput(InputTask::Net(NetCommand::Carry)))),
        (Some("mill"), Some(text)) => mill_of(alloc, text),
        _ => Ok(None),
    }
}

/// The task that the words ask for.
#[tactic(auto, using(crate::proofs::Asked::refused, crate::proofs::Asked::asked))]
pub fn task_of(alloc: Global, words: &Vec<String>) -> Result<Option<Task>, NoMemory>
    ensures { IfOk result (IsAsked (map string_bytes words.now.items)) }
{
    match values_of(alloc, words) {
        Ok((command, number)) => Ok(named(alloc, command, number)?),
        Err(fault) if fault.kind() == ErrorKind::OutOfMemory => Err(NoMemory),
        Err(_) => Ok(None),
    }
}
