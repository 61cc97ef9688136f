//! A line that is an event.
ghost use Rattle.std.specs.Prelude.{◌≡◌, IfOk, option_map};
ghost use Rattle.schedule_text.specs.Grammar.{asker_of, ask_of, send_of, tick_of, deliver_of, show_of};
ghost use Rattle.schedule_text.specs.Grammar.{finish_of, plain_event_of, injected_in, inject_of, event_of};

use crate::asked::asked_of;
use crate::fields::{bytes_of, server_at};
use crate::schedule::Event;
use express_texts::{after, last_number, number_at};
use express_words::{List, NoMemory, Settings};
use std::alloc::Global;

// The client that is asked, and what it is asked.
#[tactic(auto, unfolding(crate::specs::Grammar::asker_of))]
fn asker_of<'a>(settings: &Settings, line: &'a [u8]) -> Option<(u16, &'a [u8])>
    ensures { option_map (λ r. (r.0, r.1.now)) result ≡ asker_of settings.now line.now }
{
    let rest = after(b"ask ", line)?;
    let (client, rest) = number_at(0, u64::from(settings.lanes.saturating_sub(1)), rest)?;
    let text = after(b" ", rest)?;
    Some((client as u16, text))
}

#[tactic(auto, unfolding(crate::specs::Grammar::ask_of))]
fn ask_of(alloc: Global, settings: &Settings, line: &[u8]) -> Result<Option<Event>, NoMemory>
    ensures { IfOk result (λ found. found ≡ ask_of settings.now line.now) }
{
    match asker_of(settings, line) {
        None => Ok(None),
        Some((client, text)) => match asked_of(alloc, settings, text)? {
            None => Ok(None),
            Some(asked) => Ok(Some(Event::Ask(client, asked))),
        },
    }
}

#[tactic(auto, unfolding(crate::specs::Grammar::numbered))]
fn send_of(settings: &Settings, line: &[u8]) -> Option<Event>
    ensures { result ≡ send_of settings.now line.now }
{
    let rest = after(b"send ", line)?;
    let client = last_number(0, u64::from(settings.lanes.saturating_sub(1)), rest)?;
    Some(Event::Send(client as u16))
}

#[tactic(auto, unfolding(crate::specs::Grammar::tick_of))]
fn tick_of(line: &[u8]) -> Option<Event>
    ensures { result ≡ tick_of line.now }
{
    let rest = after(b"tick", line)?;
    if rest.is_empty() {
        Some(Event::Tick)
    } else {
        None
    }
}

#[tactic(auto, unfolding(crate::specs::Grammar::numbered))]
fn deliver_of(line: &[u8]) -> Option<Event>
    ensures { result ≡ deliver_of line.now }
{
    let rest = after(b"deliver ", line)?;
    let number = last_number(0, u64::from(u32::MAX), rest)?;
    Some(Event::Deliver(number as u32))
}

#[tactic(auto, unfolding(crate::specs::Grammar::numbered))]
fn show_of(line: &[u8]) -> Option<Event>
    ensures { result ≡ show_of line.now }
{
    let rest = after(b"show ", line)?;
    let number = last_number(0, u64::from(u32::MAX), rest)?;
    Some(Event::Show(number as u32))
}

#[tactic(auto, unfolding(crate::specs::Grammar::numbered))]
fn finish_of(settings: &Settings, line: &[u8]) -> Option<Event>
    ensures { result ≡ finish_of settings.now line.now }
{
    let rest = after(b"finish ", line)?;
    let client = last_number(0, u64::from(settings.lanes.saturating_sub(1)), rest)?;
    Some(Event::Finish(client as u16))
}

// The server and the digits that a line injects.
#[tactic(auto, unfolding(crate::specs::Grammar::injected_in))]
fn injected_in(line: &[u8]) -> Option<(u8, &[u8])>
    ensures { option_map (λ r. (r.0, r.1.now)) result ≡ injected_in line.now }
{
    let rest = after(b"inject ", line)?;
    server_at(rest)
}

#[tactic(auto, unfolding(crate::specs::Grammar::inject_of))]
fn inject_of(alloc: Global, line: &[u8]) -> Result<Option<Event>, NoMemory>
    ensures { IfOk result (λ found. found ≡ inject_of line.now) }
{
    match injected_in(line) {
        None => Ok(None),
        Some((server, digits)) => match bytes_of(alloc, digits)? {
            None => Ok(None),
            Some(bytes) => Ok(Some(Event::Inject(server, List::from_vec(bytes)))),
        },
    }
}

// Lines that need no memory.
fn plain_event_of(settings: &Settings, line: &[u8]) -> Option<Event>
    ensures { result ≡ plain_event_of settings.now line.now }
{
    if let Some(event) = send_of(settings, line) {
        return Some(event);
    }
    if let Some(event) = tick_of(line) {
        return Some(event);
    }
    if let Some(event) = deliver_of(line) {
        return Some(event);
    }
    if let Some(event) = show_of(line) {
        return Some(event);
    }
    finish_of(settings, line)
}

/// The event that a line spells for itself under these settings.
pub fn event_of(alloc: Global, settings: &Settings, line: &[u8]) -> Result<Option<Event>, NoMemory>
    ensures { IfOk result (λ found. found ≡ event_of settings.now line.now) }
{
    if let Some(event) = ask_of(alloc, settings, line)? {
        return Ok(Some(event));
    }
    if let Some(event) = plain_event_of(settings, line) {
        return Ok(Some(event));
    }
    inject_of(alloc, line)
}
