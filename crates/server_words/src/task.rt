//! What a server is asked to do.
ghost use Rattle.std.specs.Prelude.{◌≡◌, IfOk};
ghost use Rattle.server_words.specs.Tasks.{owner_of, task_of_one, task_of_two};

use express_texts::last_number;
use express_words::{NoMemory, Text};
use std::alloc::Global;

/// A lane is at most this.
pub const LAST_LANE: u64 = 255;

/// What the words ask for.
#[derive(Drop)]
pub enum ServerTask {
    /// Runs the server of the settings file at this path.
    Run(Text),
    /// Asks the server of the settings file at this path how it stands.
    Status(Text),
    /// Says what the log at this path holds, and whether it is whole.
    Check(Text),
    /// Makes the key of an owner's lane, 0 to 255, of the server of the settings file at this path.
    Owner(Text, u16),
    /// Prints the help.
    Help,
    /// Prints the version.
    Version,
}

fn copied(alloc: Global, text: &str) -> Result<Text, NoMemory>
    ensures { IfOk result (λ copy. copy ≡ text.now) }
{
    Ok(Text::from_string(String::from_str(alloc, text)?))
}

/// The task of a word with one value behind it, if there is one.
pub(crate) fn task_of_one(
    alloc: Global,
    word: &str,
    value: &str,
) -> Result<Option<ServerTask>, NoMemory>
    ensures { IfOk result (λ task. task ≡ task_of_one word.now value.now) }
{
    match word {
        "run" => Ok(Some(ServerTask::Run(copied(alloc, value)?))),
        "status" => Ok(Some(ServerTask::Status(copied(alloc, value)?))),
        "check" => Ok(Some(ServerTask::Check(copied(alloc, value)?))),
        _ => Ok(None),
    }
}

// The key of an owner's lane is wanted, if the digits are a lane's.
fn owner_of(alloc: Global, settings: &str, digits: &str) -> Result<Option<ServerTask>, NoMemory>
    ensures { IfOk result (λ task. task ≡ owner_of settings.now digits.now) }
{
    match last_number(0, LAST_LANE, digits.as_bytes()) {
        Some(lane) => Ok(Some(ServerTask::Owner(copied(alloc, settings)?, lane as u16))),
        None => Ok(None),
    }
}

/// The task of a word with two values behind it, if there is one.
pub(crate) fn task_of_two(
    alloc: Global,
    word: &str,
    first: &str,
    second: &str,
) -> Result<Option<ServerTask>, NoMemory>
    ensures { IfOk result (λ task. task ≡ task_of_two word.now first.now second.now) }
{
    match word {
        "owner" => owner_of(alloc, first, second),
        _ => Ok(None),
    }
}
