//! What the words ask for.
ghost use Rattle.std.specs.Prelude.{◌≡◌, ◌↔◌, IfOk, IsTrue, option_map};
ghost use Rattle.server_words.specs.CommandLine.{AreAlone, IsAsked, IsEither, words_in};
ghost use Rattle.server_words.specs.Tasks.{task_of};

use crate::given::{Given, given_in};
use crate::task::{ServerTask, task_of_one, task_of_two};
use clap::error::ErrorKind;
use express_words::NoMemory;
use std::alloc::Global;

fn is_either(word: &str, long: &str, short: &str) -> bool
    ensures { IsTrue result ↔ IsEither long.now short.now word.now }
{
    word == long || word == short
}

// Whether there is one word alone, which is one of these two.
fn are_alone(words: &Vec<String>, long: &str, short: &str) -> bool
    ensures { IsTrue result ↔ AreAlone long.now short.now (words_in words.now) }
{
    match words.as_slice() {
        [word] => is_either(word.as_str(), long, short),
        _ => false,
    }
}

// The task of these values, if there is one.
fn task_of(alloc: Global, given: &Given<'_>) -> Result<Option<ServerTask>, NoMemory>
    ensures { IfOk result (λ task. task ≡ task_of (option_map (λ s. s.now) given.now.word)
        (option_map (λ s. s.now) given.now.first) (option_map (λ s. s.now) given.now.second)) }
{
    match (given.word, given.first, given.second) {
        (Some(word), Some(value), None) => task_of_one(alloc, word, value),
        (Some(word), Some(first), Some(second)) => task_of_two(alloc, word, first, second),
        (None, _, _) | (_, None, _) => Ok(None),
    }
}

/// What the words ask for, if they are words of a server.
#[tactic(auto, using(crate::proofs::WordLaws::asked, crate::proofs::WordLaws::refused))]
pub fn asked_of(alloc: Global, words: &Vec<String>) -> Result<Option<ServerTask>, NoMemory>
    ensures { IfOk result (IsAsked (words_in words.now)) }
{
    if are_alone(words, "--help", "-h") {
        return Ok(Some(ServerTask::Help));
    }
    if are_alone(words, "--version", "-V") {
        return Ok(Some(ServerTask::Version));
    }
    match given_in(alloc, words) {
        Ok(given) => task_of(alloc, &given),
        Err(fault) if fault.kind() == ErrorKind::OutOfMemory => Err(NoMemory),
        Err(_) => Ok(None),
    }
}
