//! The values of the command line's arguments.
ghost use Rattle.std.specs.Prelude.{◌≡◌, ◌≢◌, [], IfOk, IfErr, option_map, codes};
ghost use Rattle.clap.specs.Words.{app_of, fault_of, kind_of};
ghost use Rattle.server_words.specs.CommandLine.{server_app, value_of, words_in};

use clap::error::ErrorKind;
use clap::{Arg, Command, Error};
use std::alloc::{AllocError, Global};

/// What stands at each place of the command line.
#[derive(Clone, Copy)]
pub(crate) struct Given<'a> {
    pub(crate) word: Option<&'a str>,
    pub(crate) first: Option<&'a str>,
    pub(crate) second: Option<&'a str>,
}

// A required WORD, and two optional values behind it.
fn parser<'a>(alloc: Global) -> Result<Command<'a>, AllocError>
    ensures { IfOk result (λ c. app_of c ≡ server_app) }
{
    let word = Arg::new(alloc, "WORD").required(true);
    let first = Arg::new(alloc, "FIRST");
    let second = Arg::new(alloc, "SECOND");
    let bare = Command::new(alloc, "express-server")
        .no_binary_name(true)
        .disable_help_flag(true)
        .disable_version_flag(true);
    let with_word = bare.arg(word)?;
    let with_first = with_word.arg(first)?;
    let whole = with_first.arg(second)?;
    Ok(whole)
}

/// The values that these words give.
pub(crate) fn given_in<'a>(alloc: Global, words: &'a Vec<String>) -> Result<Given<'a>, Error>
    ensures word { IfOk result (λ g. option_map (λ s. s.now) g.word
        ≡ value_of (codes "WORD") (words_in words.entry.now)) }
    ensures first { IfOk result (λ g. option_map (λ s. s.now) g.first
        ≡ value_of (codes "FIRST") (words_in words.entry.now)) }
    ensures second { IfOk result (λ g. option_map (λ s. s.now) g.second
        ≡ value_of (codes "SECOND") (words_in words.entry.now)) }
    ensures taken { IfOk result (λ g. fault_of server_app (words_in words.entry.now) ≡ []) }
    ensures refused { IfErr result (λ e. kind_of e ≢ ErrorKind.OutOfMemory
        → fault_of server_app (words_in words.entry.now) ≢ []) }
{
    let command = parser(alloc)?;
    match command.try_get_matches_from(words.as_slice()) {
        Err(fault) => Err(fault),
        Ok(matches) => Ok(Given {
            word: matches.get_str("WORD"),
            first: matches.get_str("FIRST"),
            second: matches.get_str("SECOND"),
        }),
    }
}
