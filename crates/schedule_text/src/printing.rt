//! Prints a schedule: of its spellings the one with lower-case digits and a last LF.
ghost use Rattle.std.specs.Prelude.{◌≡◌, ◌++◌, length, Ok, IfOk, OnOk, string_bytes, flat_map};
ghost use Rattle.dpf_rules.specs.Bytes.{AreBytes};
ghost use Rattle.hex.specs.Hex.{encode_lower};
ghost use Rattle.schedule_text.specs.Grammar.{schedule_of};
ghost use Rattle.schedule_text.specs.Printing.{address_text, asked_text, event_text, event_line};
ghost use Rattle.schedule_text.specs.Printing.{header_text, printed};
ghost use Rattle.schedule_text.specs.Rules.{KeepsRules};
ghost use Rattle.schedule_text.specs.Spelling.{server_letter, SpellsSchedule};

use crate::schedule::{Asked, Event, Header, Schedule};
use express_words::NoMemory;
use std::alloc::{AllocError, Global};

// Two digits a byte.
fn digits_of(alloc: Global, bytes: &[u8]) -> Result<String, AllocError>
    ensures text { IfOk result (λ text. string_bytes text ≡ encode_lower bytes.now) }
    ensures bytes { AreBytes bytes.now }
{
    hex::encode(alloc, bytes)
}

// 32 digits, the most significant first.
fn address_text(alloc: Global, address: u128) -> Result<String, AllocError>
    ensures { IfOk result (λ text. string_bytes text ≡ address_text address) }
{
    hex::encode(alloc, address.to_be_bytes().as_slice())
}

#[tactic(auto, unfolding(crate::specs::Printing::asked_text))]
fn asked_text(alloc: Global, asked: &Asked) -> Result<String, AllocError>
    ensures { IfOk result (λ text. string_bytes text ≡ asked_text asked.now) }
{
    match asked {
        Asked::Register(address) => {
            let address = address_text(alloc, *address)?;
            format!(in alloc; "register {address}")
        }
        Asked::Write(target, message) => {
            let target = address_text(alloc, *target)?;
            let message = hex::encode(alloc, message.as_slice())?;
            format!(in alloc; "write {target} {message}")
        }
        Asked::Read(own) => format!(in alloc; "read {own}"),
        Asked::Retire(own) => format!(in alloc; "retire {own}"),
    }
}

// The letter of a server: the leader is A, the helper B.
fn server_letter(server: u8) -> &'static str
    ensures { result.now ≡ server_letter server }
{
    if server == 0 { "A" } else { "B" }
}

#[tactic(auto, unfolding(crate::specs::Printing::event_text))]
fn event_text(alloc: Global, event: &Event) -> Result<String, AllocError>
    ensures { IfOk result (λ text. string_bytes text ≡ event_text event.now) }
{
    match event {
        Event::Ask(client, asked) => {
            let asked = asked_text(alloc, asked)?;
            format!(in alloc; "ask {client} {asked}")
        }
        Event::Send(client) => format!(in alloc; "send {client}"),
        Event::Tick => format!(in alloc; "tick"),
        Event::Deliver(number) => format!(in alloc; "deliver {number}"),
        Event::Show(number) => format!(in alloc; "show {number}"),
        Event::Finish(client) => format!(in alloc; "finish {client}"),
        Event::Inject(server, bytes) => {
            let server = server_letter(*server);
            let bytes = hex::encode(alloc, bytes.as_slice())?;
            format!(in alloc; "inject {server} {bytes}")
        }
    }
}

#[tactic(auto, unfolding(crate::specs::Printing::header_text))]
fn header_text(alloc: Global, header: &Header) -> Result<String, AllocError>
    ensures text { IfOk result (λ text. string_bytes text ≡ header_text header.now) }
    ensures seed_length { length header.now.seed ≡ 32 }
    ensures seed_bytes { AreBytes header.now.seed }
{
    let seed = digits_of(alloc, header.seed.as_slice())?;
    let width = header.settings.width;
    let boxes = header.settings.boxes;
    let lanes = header.settings.lanes;
    let window = header.settings.window;
    format!(in alloc; "express 1 {width} {boxes} {lanes} {window} {seed}")
}

// Adds a line for each event.
fn add_events(alloc: Global, text: &mut String, events: &[Event]) -> Result<(), AllocError>
    ensures { OnOk result (string_bytes text.new ≡ string_bytes text.old ++ flat_map event_line events.now) }
{
    for event in events {
        let line = event_text(alloc, event)?;
        text.push_str(line.as_str())?;
        text.push_str("\n")?;
    }
    Ok(())
}

// The text, and that the seed is one.
#[tactic(auto, unfolding(crate::specs::Printing::printed))]
fn text_of(alloc: Global, schedule: &Schedule) -> Result<String, AllocError>
    ensures text { IfOk result (λ text. string_bytes text ≡ printed schedule.now) }
    ensures seed_length { length schedule.now.header.seed ≡ 32 }
    ensures seed_bytes { AreBytes schedule.now.header.seed }
{
    let mut text = header_text(alloc, &schedule.header)?;
    text.push_str("\n")?;
    add_events(alloc, &mut text, schedule.events.as_slice())?;
    Ok(text)
}

/// The text of a schedule that breaks no rule.
pub fn print(alloc: Global, schedule: &Schedule) -> Result<Vec<u8>, NoMemory>
    requires { KeepsRules schedule.now }
    ensures text { IfOk result (λ text. text.items ≡ printed schedule.now) }
    ensures spelled { IfOk result (λ text. SpellsSchedule schedule.now text.items) }
    // Reading it gives the schedule again.
    ensures again { IfOk result (λ text. schedule_of text.items ≡ Ok schedule.now) }
{
    let text = text_of(alloc, schedule)?;
    Ok(text.into_bytes())
}
