//! The values of the command line's arguments.
ghost use Rattle.std.specs.Prelude.{◌≡◌, ◌≢◌, [], IfOk, IfErr, option_map, codes};
ghost use Rattle.clap.specs.Words.{app_of, fault_of, kind_of};
ghost use Rattle.desk_words.specs.CommandLine.{desk_app, is_set, is_true, options_app, places_app, value_of, words_in};

use clap::error::ErrorKind;
use clap::{Arg, ArgAction, Command, Error};
use std::alloc::{AllocError, Global};

/// What stands at each place of the command line.
#[derive(Clone, Copy)]
pub(crate) struct Given<'a> {
    pub(crate) desk: Option<&'a str>,
    pub(crate) out: Option<&'a str>,
    pub(crate) until: Option<&'a str>,
    pub(crate) at_once: bool,
    pub(crate) word: Option<&'a str>,
    pub(crate) first: Option<&'a str>,
    pub(crate) second: Option<&'a str>,
    pub(crate) proxy: Option<&'a str>,
}

// The options --desk, --out and --proxy.
fn with_places<'a>(alloc: Global) -> Result<Command<'a>, AllocError>
    ensures { IfOk result (λ c. app_of c ≡ places_app) }
{
    let desk = Arg::new(alloc, "DESK").long("desk").action(ArgAction::Set);
    let out = Arg::new(alloc, "OUT").long("out").action(ArgAction::Set);
    let proxy = Arg::new(alloc, "PROXY")
        .long("proxy")
        .action(ArgAction::Set);
    let bare = Command::new(alloc, "express-desk")
        .no_binary_name(true)
        .disable_help_flag(true)
        .disable_version_flag(true);
    let with_desk = bare.arg(desk)?;
    let with_out = with_desk.arg(out)?;
    let whole = with_out.arg(proxy)?;
    Ok(whole)
}

// The same, and --until and the flag --now.
fn with_options<'a>(alloc: Global) -> Result<Command<'a>, AllocError>
    ensures { IfOk result (λ c. app_of c ≡ options_app) }
{
    let until = Arg::new(alloc, "UNTIL")
        .long("until")
        .action(ArgAction::Set);
    let now = Arg::new(alloc, "NOW")
        .long("now")
        .action(ArgAction::SetTrue);
    let places = with_places(alloc)?;
    let with_until = places.arg(until)?;
    let whole = with_until.arg(now)?;
    Ok(whole)
}

// The options, a required WORD, and two optional values behind it.
fn parser<'a>(alloc: Global) -> Result<Command<'a>, AllocError>
    ensures { IfOk result (λ c. app_of c ≡ desk_app) }
{
    let word = Arg::new(alloc, "WORD").required(true);
    let first = Arg::new(alloc, "FIRST");
    let second = Arg::new(alloc, "SECOND");
    let options = with_options(alloc)?;
    let with_word = options.arg(word)?;
    let with_first = with_word.arg(first)?;
    let whole = with_first.arg(second)?;
    Ok(whole)
}

// Whether a flag is set: its value is a text.
fn is_true(value: Option<&str>) -> bool
    ensures { result ≡ is_true (option_map (λ s. s.now) value.entry) }
{
    match value {
        Some(text) => text == "true",
        None => false,
    }
}

/// The values that these words give.
pub(crate) fn given_in<'a>(alloc: Global, words: &'a Vec<String>) -> Result<Given<'a>, Error>
    ensures desk { IfOk result (λ g. option_map (λ s. s.now) g.desk
        ≡ value_of (codes "DESK") (words_in words.entry.now)) }
    ensures word { IfOk result (λ g. option_map (λ s. s.now) g.word
        ≡ value_of (codes "WORD") (words_in words.entry.now)) }
    ensures first { IfOk result (λ g. option_map (λ s. s.now) g.first
        ≡ value_of (codes "FIRST") (words_in words.entry.now)) }
    ensures second { IfOk result (λ g. option_map (λ s. s.now) g.second
        ≡ value_of (codes "SECOND") (words_in words.entry.now)) }
    ensures out { IfOk result (λ g. option_map (λ s. s.now) g.out
        ≡ value_of (codes "OUT") (words_in words.entry.now)) }
    ensures until { IfOk result (λ g. option_map (λ s. s.now) g.until
        ≡ value_of (codes "UNTIL") (words_in words.entry.now)) }
    ensures at_once { IfOk result (λ g. g.at_once ≡ is_set (codes "NOW") (words_in words.entry.now)) }
    ensures proxy { IfOk result (λ g. option_map (λ s. s.now) g.proxy
        ≡ value_of (codes "PROXY") (words_in words.entry.now)) }
    ensures taken { IfOk result (λ g. fault_of desk_app (words_in words.entry.now) ≡ []) }
    ensures refused { IfErr result (λ e. kind_of e ≢ ErrorKind.OutOfMemory
        → fault_of desk_app (words_in words.entry.now) ≢ []) }
{
    let command = parser(alloc)?;
    match command.try_get_matches_from(words.as_slice()) {
        Err(fault) => Err(fault),
        Ok(matches) => Ok(Given {
            desk: matches.get_str("DESK"),
            out: matches.get_str("OUT"),
            until: matches.get_str("UNTIL"),
            at_once: is_true(matches.get_str("NOW")),
            word: matches.get_str("WORD"),
            first: matches.get_str("FIRST"),
            second: matches.get_str("SECOND"),
            proxy: matches.get_str("PROXY"),
        }),
    }
}
