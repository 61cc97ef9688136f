//! What a client is asked, as a line says it.
ghost use Rattle.std.specs.Prelude.{◌≡◌, IfOk, option_map};
ghost use Rattle.schedule_text.specs.Fields.{or_else};
ghost use Rattle.schedule_text.specs.Grammar.{register_of, target_of, write_of, read_of, retire_of, asked_of};

use crate::schedule::Asked;
use express_texts::{MOST_OWN, after, last_number, message_of, spelled_word, word_at};
use express_words::{List, NoMemory, Settings};
use std::alloc::Global;

#[tactic(auto, unfolding(crate::specs::Grammar::register_of))]
fn register_of(text: &[u8]) -> Option<Asked>
    ensures { result ≡ register_of text.now }
{
    let digits = after(b"register ", text)?;
    let address = spelled_word(digits)?;
    Some(Asked::Register(address))
}

#[tactic(auto, unfolding(crate::specs::Grammar::target_of))]
fn target_of(text: &[u8]) -> Option<(u128, &[u8])>
    ensures { option_map (λ r. (r.0, r.1.now)) result ≡ target_of text.now }
{
    let rest = after(b"write ", text)?;
    let (target, rest) = word_at(rest)?;
    let digits = after(b" ", rest)?;
    Some((target, digits))
}

#[tactic(auto, unfolding(crate::specs::Grammar::write_of))]
fn write_of(alloc: Global, settings: &Settings, text: &[u8]) -> Result<Option<Asked>, NoMemory>
    ensures { IfOk result (λ found. found ≡ write_of settings.now text.now) }
{
    match target_of(text) {
        None => Ok(None),
        Some((target, digits)) => match message_of(alloc, settings.width, digits)? {
            None => Ok(None),
            Some(message) => Ok(Some(Asked::Write(target, List::from_vec(message)))),
        },
    }
}

#[tactic(auto, unfolding(crate::specs::Grammar::read_of))]
fn read_of(text: &[u8]) -> Option<Asked>
    ensures { result ≡ read_of text.now }
{
    let number = after(b"read ", text)?;
    let own = last_number(0, u64::from(MOST_OWN), number)?;
    Some(Asked::Read(own as u32))
}

#[tactic(auto, unfolding(crate::specs::Grammar::retire_of))]
fn retire_of(text: &[u8]) -> Option<Asked>
    ensures { result ≡ retire_of text.now }
{
    let number = after(b"retire ", text)?;
    let own = last_number(0, u64::from(MOST_OWN), number)?;
    Some(Asked::Retire(own as u32))
}

// What needs no memory.
fn plainly_asked_of(text: &[u8]) -> Option<Asked>
    ensures { result ≡ or_else (read_of text.now) (retire_of text.now) }
{
    match read_of(text) {
        Some(asked) => Some(asked),
        None => retire_of(text),
    }
}

/// What a text asks under these settings.
pub fn asked_of(alloc: Global, settings: &Settings, text: &[u8]) -> Result<Option<Asked>, NoMemory>
    ensures { IfOk result (λ found. found ≡ asked_of settings.now text.now) }
{
    if let Some(asked) = register_of(text) {
        return Ok(Some(asked));
    }
    match write_of(alloc, settings, text)? {
        Some(asked) => Ok(Some(asked)),
        None => Ok(plainly_asked_of(text)),
    }
}
