//! The task that the values of a command line name.
ghost use Rattle.std.specs.Prelude.{◌≡◌, ◌≢◌, IfOk, IfSome, Some, None, codes, option_map, true};
ghost use Rattle.desk_texts.specs.Days.{IsDay, day_text};
ghost use Rattle.desk_words.specs.CommandLine.{said, said_boxes};
ghost use Rattle.desk_words.specs.Places.{said_at};
ghost use Rattle.desk_words.specs.Tasks.{IsTaskOf};

use crate::given::Given;
use crate::number::{count_in, number_in};
use crate::task::{DeskTask, MOST_LETTERS};
use desk_texts::{Day, day_in};
use std::alloc::{AllocError, Global};

// A task that has no value behind its word.
#[tactic(auto, using(crate::proofs::Named::none_bare))]
fn bare_task<'a>(word: &str) -> Option<DeskTask<'a>>
    ensures { IsTaskOf (said word.now None None) result }
{
    match word {
        "letters" => Some(DeskTask::Letters { out: None }),
        "discard" => Some(DeskTask::Discard { number: None }),
        "resume" => Some(DeskTask::Resume),
        "adopt" => Some(DeskTask::Adopt),
        "forget" => Some(DeskTask::Forget),
        "status" => Some(DeskTask::Status),
        "help" => Some(DeskTask::Help),
        _ => None,
    }
}

// A task with one text behind its word.
#[tactic(auto, using(crate::proofs::Named::none_of_one))]
fn task_of_text<'a>(word: &str, value: &'a str) -> Option<DeskTask<'a>>
    requires boxes { word.now ≢ codes "box" }
    requires letter { word.now ≢ codes "discard" }
    ensures { IsTaskOf (said word.now (Some value.entry.now) None) result }
{
    match word {
        "open" => Some(DeskTask::Open { pair: value }),
        "card" => Some(DeskTask::Card { name: value }),
        "send" => Some(DeskTask::Send {
            card: value,
            file: None,
        }),
        "retire" => Some(DeskTask::Retire {
            name: value,
            now: false,
        }),
        _ => None,
    }
}

// A letter that is given up, by its number.
#[tactic(auto, using(crate::proofs::Named::none_unnumbered))]
fn discarded<'a>(alloc: Global, value: &str) -> Result<Option<DeskTask<'a>>, AllocError>
    ensures { IfOk result (IsTaskOf (said (codes "discard") (Some value.now) None)) }
{
    match number_in(alloc, value, MOST_LETTERS)? {
        Some(number) => Ok(Some(DeskTask::Discard {
            number: Some(number),
        })),
        None => Ok(None),
    }
}

// Boxes with a name, so many as the digits say.
#[tactic(auto, using(crate::proofs::Named::none_uncounted))]
fn boxes<'a>(
    alloc: Global,
    name: &'a str,
    digits: Option<&str>,
    until: Option<Day>,
) -> Result<Option<DeskTask<'a>>, AllocError>
    requires day { IfSome until IsDay }
    ensures { IfOk result (IsTaskOf (said_boxes (Some name.entry.now) (option_map (λ s. s.now) digits.entry)
        (option_map day_text until))) }
{
    match count_in(alloc, digits)? {
        Some(count) => Ok(Some(DeskTask::Box { name, count, until })),
        None => Ok(None),
    }
}

// A task with one value behind its word.
fn task_of_one<'a>(
    alloc: Global,
    word: &str,
    value: &'a str,
) -> Result<Option<DeskTask<'a>>, AllocError>
    ensures { IfOk result (IsTaskOf (said word.now (Some value.entry.now) None)) }
{
    match word {
        "box" => boxes(alloc, value, None, None),
        "discard" => discarded(alloc, value),
        _ => Ok(task_of_text(word, value)),
    }
}

// A task with two values behind its word.
#[tactic(auto, using(crate::proofs::Named::none_of_two))]
fn task_of_two<'a>(
    alloc: Global,
    word: &str,
    first: &'a str,
    second: &'a str,
) -> Result<Option<DeskTask<'a>>, AllocError>
    ensures { IfOk result (IsTaskOf (said word.now (Some first.entry.now) (Some second.entry.now))) }
{
    match word {
        "send" => Ok(Some(DeskTask::Send {
            card: first,
            file: Some(second),
        })),
        "box" => boxes(alloc, first, Some(second), None),
        _ => Ok(None),
    }
}

// The task of these values without an option.
#[tactic(auto, using(crate::proofs::Named::none_second))]
fn task_of<'a>(
    alloc: Global,
    word: &str,
    first: Option<&'a str>,
    second: Option<&'a str>,
) -> Result<Option<DeskTask<'a>>, AllocError>
    ensures { IfOk result (IsTaskOf (said word.now (option_map (λ s. s.now) first.entry)
        (option_map (λ s. s.now) second.entry))) }
{
    match (first, second) {
        (None, None) => Ok(bare_task(word)),
        (Some(value), None) => task_of_one(alloc, word, value),
        (Some(first), Some(second)) => task_of_two(alloc, word, first, second),
        (None, Some(_)) => Ok(None),
    }
}

// The letters are to be written into a folder, if that is what these values ask for.
#[tactic(auto, using(crate::proofs::Options::none_out))]
fn written_letters<'a>(given: &Given<'a>, word: &str, out: &'a str) -> Option<DeskTask<'a>>
    requires word { option_map (λ s. s.now) given.now.word ≡ Some word.now }
    requires out { option_map (λ s. s.now) given.now.out ≡ Some out.now }
    ensures { IsTaskOf (said_at given.now) result }
{
    let is_bare = given.first.is_none() && given.second.is_none();
    if word == "letters" && is_bare && given.until.is_none() && !given.at_once {
        Some(DeskTask::Letters { out: Some(out) })
    } else {
        None
    }
}

// The boxes of a name are to be retired now, if that is what these values ask for.
#[tactic(auto, using(crate::proofs::Options::none_now))]
fn retired_now<'a>(given: &Given<'a>, word: &str) -> Option<DeskTask<'a>>
    requires word { option_map (λ s. s.now) given.now.word ≡ Some word.now }
    requires out { option_map (λ s. s.now) given.now.out ≡ None }
    requires until { option_map (λ s. s.now) given.now.until ≡ None }
    requires at_once { given.now.at_once ≡ true }
    ensures { IsTaskOf (said_at given.now) result }
{
    match (given.first, given.second) {
        (Some(name), None) if word == "retire" => Some(DeskTask::Retire { name, now: true }),
        _ => None,
    }
}

// Boxes are wanted with a card until this day, if that is what these values ask for.
#[tactic(auto, using(crate::proofs::Options::none_until))]
fn boxes_until<'a>(
    alloc: Global,
    given: &Given<'a>,
    word: &str,
    until: &str,
) -> Result<Option<DeskTask<'a>>, AllocError>
    requires word { option_map (λ s. s.now) given.now.word ≡ Some word.now }
    requires out { option_map (λ s. s.now) given.now.out ≡ None }
    requires until { option_map (λ s. s.now) given.now.until ≡ Some until.now }
    ensures { IfOk result (IsTaskOf (said_at given.now)) }
{
    if word != "box" || given.at_once {
        return Ok(None);
    }
    match (given.first, day_in(until.as_bytes())) {
        (Some(name), Some(day)) => boxes(alloc, name, given.second, Some(day)),
        (None, _) | (_, None) => Ok(None),
    }
}

/// The task of these values.
pub(crate) fn task_in<'a>(
    alloc: Global,
    given: &Given<'a>,
) -> Result<Option<DeskTask<'a>>, AllocError>
    ensures { IfOk result (IsTaskOf (said_at given.now)) }
{
    let Some(word) = given.word else {
        return Ok(None);
    };
    if let Some(out) = given.out {
        return Ok(written_letters(given, word, out));
    }
    if let Some(until) = given.until {
        return boxes_until(alloc, given, word, until);
    }
    if given.at_once {
        return Ok(retired_now(given, word));
    }
    task_of(alloc, word, given.first, given.second)
}
