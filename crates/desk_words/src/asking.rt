//! What the words ask for.
ghost use Rattle.std.specs.Prelude.{◌≡◌, ◌↔◌, IfOk, IfSome, IsTrue, None, option_map};
ghost use Rattle.desk_words.specs.CommandLine.{AskSome, FolderIs, ProxyIs, IsAsked, IsHelpWord, WantHelp, words_in};

use crate::given::given_in;
use crate::naming::task_in;
use crate::task::DeskTask;
use clap::error::ErrorKind;
use express_words::NoMemory;
use std::alloc::Global;

/// What the words ask for: a task, and the desk's folder and a proxy where they name them.
#[derive(Clone, Copy, Debug, PartialEq, Eq)]
pub struct Asked<'a> {
    pub folder: Option<&'a str>,
    pub proxy: Option<&'a str>,
    pub task: DeskTask<'a>,
}

fn is_help_word(word: &str) -> bool
    ensures { IsTrue result ↔ IsHelpWord word.now }
{
    word == "--help" || word == "-h"
}

// Whether one word alone wants the help.
fn wants_help(words: &Vec<String>) -> bool
    ensures { IsTrue result ↔ WantHelp (words_in words.now) }
{
    match words.as_slice() {
        [word] => is_help_word(word.as_str()),
        _ => false,
    }
}

/// What the words ask for, if they are words of a desk.
#[tactic(auto, using(crate::proofs::WordLaws::asks, crate::proofs::WordLaws::asks_nothing, crate::proofs::WordLaws::refused, crate::proofs::WordLaws::said_of))]
pub fn asked_of<'a>(alloc: Global, words: &'a Vec<String>) -> Result<Option<Asked<'a>>, NoMemory>
    ensures task { IfOk result (λ asked.
        IsAsked (words_in words.entry.now) (option_map (λ a. a.task) asked)) }
    ensures folder { IfOk result (λ asked. IfSome asked (λ a.
        FolderIs (words_in words.entry.now) (option_map (λ s. s.now) a.folder))) }
    ensures proxy { IfOk result (λ asked. IfSome asked (λ a.
        ProxyIs (words_in words.entry.now) (option_map (λ s. s.now) a.proxy))) }
{
    if wants_help(words) {
        return Ok(Some(Asked {
            folder: None,
            proxy: None,
            task: DeskTask::Help,
        }));
    }
    let given = match given_in(alloc, words) {
        Ok(given) => given,
        Err(fault) if fault.kind() == ErrorKind::OutOfMemory => return Err(NoMemory),
        Err(_) => return Ok(None),
    };
    match task_in(alloc, &given)? {
        Some(task) => Ok(Some(Asked {
            folder: given.desk,
            proxy: given.proxy,
            task,
        })),
        None => Ok(None),
    }
}

/// The folder that the words name, if they are words of a desk and name one.
#[tactic(auto, using(crate::proofs::WordLaws::some_asked, crate::proofs::WordLaws::none_asked))]
pub fn folder_of<'a>(alloc: Global, words: &'a Vec<String>) -> Result<Option<&'a str>, NoMemory>
    ensures named { IfOk result (λ folder. AskSome (words_in words.entry.now)
        → FolderIs (words_in words.entry.now) (option_map (λ s. s.now) folder)) }
    ensures other { IfOk result (λ folder. (AskSome (words_in words.entry.now) → ⊥)
        → option_map (λ s. s.now) folder ≡ None) }
{
    match asked_of(alloc, words)? {
        Some(asked) => Ok(asked.folder),
        None => Ok(None),
    }
}

/// The proxy that the words name, if they are words of a desk and name one.
#[tactic(auto, using(crate::proofs::WordLaws::some_asked, crate::proofs::WordLaws::none_asked))]
pub fn proxy_of<'a>(alloc: Global, words: &'a Vec<String>) -> Result<Option<&'a str>, NoMemory>
    ensures named { IfOk result (λ proxy. AskSome (words_in words.entry.now)
        → ProxyIs (words_in words.entry.now) (option_map (λ s. s.now) proxy)) }
    ensures other { IfOk result (λ proxy. (AskSome (words_in words.entry.now) → ⊥)
        → option_map (λ s. s.now) proxy ≡ None) }
{
    match asked_of(alloc, words)? {
        Some(asked) => Ok(asked.proxy),
        None => Ok(None),
    }
}
