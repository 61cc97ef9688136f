//! The text of a run: outcomes, journal lines, shares and noted frames.
ghost use Rattle.std.specs.Prelude.{◌≡◌, ◌≤◌, ◌++◌, length, IfOk, OnOk, codes, flat_map, string_bytes};
ghost use Rattle.replay_world.specs.Output.{number_text, openings_text, closing_text, told_text, outcome_line};
ghost use Rattle.replay_world.specs.Output.{command_text, value_text, journal_line, share_line, share_lines};
ghost use Rattle.replay_world.specs.Output.{shown_line, run_text};
ghost use Rattle.replay_world.specs.View.{run_in};
ghost use Rattle.schedule_text.specs.declared.schedule.Header.{Header};
ghost use Rattle.run_rules.specs.Letters.{Audited, Settled};
ghost use Rattle.replay_world.specs.Parts.{command_in, value_in, line_in, journal_in, told_in, outcome_in};
ghost use Rattle.replay_world.specs.Parts.{outcomes_in, shown_in, shown_all_in};

use crate::lines::{Command, Entry, JournalLine, OutcomeLine, Shown, Told};
use crate::state::State;
use client_core::{no_box_text, outcome_text};
use express_words::{Closing, Openings};
use std::alloc::{AllocError, Global};

// A number as 32 hexadecimal digits, the highest first.
fn number_text(alloc: Global, number: u128) -> Result<String, AllocError>
    ensures { IfOk result (λ text. string_bytes text ≡ number_text number) }
{
    hex::encode(alloc, number.to_be_bytes().as_slice())
}

#[tactic(auto, unfolding(crate::specs::Output::told_text))]
fn told_text(alloc: Global, told: Told, message: &[u8]) -> Result<String, AllocError>
    ensures { IfOk result (λ text. string_bytes text ≡ told_text (told_in told message.now)) }
{
    match told {
        Told::Done(outcome) => outcome_text(alloc, outcome, message),
        Told::NoOwn(own) => no_box_text(alloc, own),
    }
}

#[tactic(auto, unfolding(crate::specs::Output::outcome_line))]
fn outcome_line(alloc: Global, line: &OutcomeLine) -> Result<String, AllocError>
    ensures { IfOk result (λ text. string_bytes text ≡ outcome_line (outcome_in line.now)) }
{
    let client = line.client;
    let request = line.request;
    let told = told_text(alloc, line.outcome, line.message.as_slice())?;
    let text = format!(in alloc; "outcome {client} {request} {told}\n")?;
    Ok(text)
}

fn command_text(command: Command) -> &'static str
    ensures { result.now ≡ command_text (command_in command) }
{
    match command {
        Command::Register => "register",
        Command::Begin => "begin",
        Command::Audit => "audit",
        Command::Settle => "settle",
        Command::Read => "read",
        Command::Retire => "retire",
    }
}

fn openings_text(alloc: Global, opened: &Openings) -> Result<String, AllocError>
    ensures { IfOk result (λ text. string_bytes text ≡ openings_text opened.now) }
{
    let d = number_text(alloc, opened.d)?;
    let e = number_text(alloc, opened.e)?;
    format!(in alloc; "{d} {e}")
}

fn closing_text(alloc: Global, closing: &Closing) -> Result<String, AllocError>
    ensures { IfOk result (λ text. string_bytes text ≡ closing_text closing.now) }
{
    let o = number_text(alloc, closing.o)?;
    let tau = number_text(alloc, closing.tau)?;
    format!(in alloc; "{o} {tau}")
}

#[tactic(auto, unfolding(crate::specs::Output::value_text))]
fn audit_text(
    alloc: Global,
    leaders: &Openings,
    helpers: &Openings,
    closing: &Closing,
) -> Result<String, AllocError>
    ensures { IfOk result (λ text. string_bytes text ≡ value_text (Audited leaders.now helpers.now closing.now)) }
{
    let leaders = openings_text(alloc, leaders)?;
    let helpers = openings_text(alloc, helpers)?;
    let closing = closing_text(alloc, closing)?;
    format!(in alloc; "audit {leaders} {helpers} {closing}")
}

#[tactic(auto, unfolding(crate::specs::Output::value_text))]
fn settle_text(alloc: Global, accepted: bool, closing: &Closing) -> Result<String, AllocError>
    ensures { IfOk result (λ text. string_bytes text ≡ value_text (Settled accepted closing.now)) }
{
    let closing = closing_text(alloc, closing)?;
    if accepted {
        format!(in alloc; "settle accepted {closing}")
    } else {
        format!(in alloc; "settle rejected {closing}")
    }
}

#[tactic(auto, unfolding(crate::specs::Output::value_text))]
fn entry_text(alloc: Global, entry: &Entry) -> Result<String, AllocError>
    ensures { IfOk result (λ text. string_bytes text ≡ value_text (value_in entry.now)) }
{
    match entry {
        Entry::Registered(box_number) => format!(in alloc; "register {box_number}"),
        Entry::Began(count) => format!(in alloc; "begin {count}"),
        Entry::Audited(leaders, helpers, closing) => audit_text(alloc, leaders, helpers, closing),
        Entry::Settled(accepted, closing) => settle_text(alloc, *accepted, closing),
        Entry::WasRead(box_number) => format!(in alloc; "read {box_number}"),
        Entry::Retired(box_number) => format!(in alloc; "retire {box_number}"),
        Entry::Refused(command, refusal) => {
            let command = command_text(*command);
            format!(in alloc; "{command} {refusal}")
        }
    }
}

#[tactic(auto, unfolding(crate::specs::Output::journal_line))]
fn journal_line(alloc: Global, line: &JournalLine) -> Result<String, AllocError>
    ensures { IfOk result (λ text. string_bytes text ≡ journal_line (line_in line.now)) }
{
    let lane = line.lane;
    let serial = line.serial;
    let entry = entry_text(alloc, &line.entry)?;
    format!(in alloc; "journal {lane} {serial} {entry}\n")
}

// The line of a box, with both servers' shares of it.
#[tactic(auto, unfolding(crate::specs::Output::share_line))]
fn share_line(
    alloc: Global,
    box_number: u32,
    address: u128,
    zero: &[u8],
    one: &[u8],
) -> Result<String, AllocError>
    ensures { IfOk result (λ text. string_bytes text ≡ share_line box_number address zero.now one.now) }
{
    let address = number_text(alloc, address)?;
    let zero = hex::encode(alloc, zero)?;
    let one = hex::encode(alloc, one)?;
    format!(in alloc; "share {box_number} {address} {zero} {one}\n")
}

#[tactic(auto, unfolding(crate::specs::Output::shown_line))]
fn shown_line(alloc: Global, shown: &Shown) -> Result<String, AllocError>
    ensures { IfOk result (λ text. string_bytes text ≡ shown_line (shown_in shown.now)) }
{
    let number = shown.number;
    let bytes = hex::encode(alloc, shown.bytes.as_slice())?;
    format!(in alloc; "frame {number} {bytes}\n")
}

fn add_outcomes(alloc: Global, text: &mut String, lines: &[OutcomeLine]) -> Result<(), AllocError>
    ensures { OnOk result (string_bytes text.new
        ≡ string_bytes text.old ++ flat_map outcome_line (outcomes_in lines.now)) }
{
    for line in lines {
        let piece = outcome_line(alloc, line)?;
        text.push_str(piece.as_str())?;
    }
    Ok(())
}

fn add_journal(alloc: Global, text: &mut String, lines: &[JournalLine]) -> Result<(), AllocError>
    ensures { OnOk result (string_bytes text.new
        ≡ string_bytes text.old ++ flat_map journal_line (journal_in lines.now)) }
{
    for line in lines {
        let piece = journal_line(alloc, line)?;
        text.push_str(piece.as_str())?;
    }
    Ok(())
}

// A line for each box of the helper, beside the leader's share of it, which is zeros where it has no such box yet.
fn add_shares(alloc: Global, text: &mut String, state: &State) -> Result<(), AllocError>
    requires { state.now.helper.server.settings.boxes ≤ state.now.leader.settings.boxes }
    ensures { OnOk result (string_bytes text.new
        ≡ string_bytes text.old ++ share_lines state.now.leader 0 state.now.helper.server.boxes) }
{
    for box_number in 0..state.helper.count() {
        let piece = share_line(
            alloc,
            box_number,
            state.helper.address_of(box_number),
            state.leader.share(box_number),
            state.helper.share(box_number),
        )?;
        text.push_str(piece.as_str())?;
    }
    Ok(())
}

// About as many bytes as the lines of the shown frames take: so their text, which may be the most of all, is never
// grown by copying it.
fn shown_room(lines: &[Shown]) -> usize {
    let mut room: usize = 0;
    for line in lines {
        let digits = line.bytes.as_slice().len().saturating_mul(2);
        room = room.saturating_add(digits).saturating_add(20);
    }
    room
}

fn add_shown(alloc: Global, text: &mut String, lines: &[Shown]) -> Result<(), AllocError>
    ensures { OnOk result (string_bytes text.new
        ≡ string_bytes text.old ++ flat_map shown_line (shown_all_in lines.now)) }
{
    text.reserve_exact(shown_room(lines))?;
    for line in lines {
        let piece = shown_line(alloc, line)?;
        text.push_str(piece.as_str())?;
    }
    Ok(())
}

/// The whole text of a run.
#[tactic(auto, unfolding(crate::specs::Output::run_text))]
pub fn text_of(alloc: Global, state: &State) -> Result<String, AllocError>
    requires { state.now.helper.server.settings.boxes ≤ state.now.leader.settings.boxes }
    ensures { (header : Header) → IfOk result (λ text. string_bytes text ≡ run_text (run_in header state.now)) }
{
    let mut text = String::new(alloc);
    add_outcomes(alloc, &mut text, state.outcomes.as_slice())?;
    add_journal(alloc, &mut text, state.journal.as_slice())?;
    add_shares(alloc, &mut text, state)?;
    add_shown(alloc, &mut text, state.shown.as_slice())?;
    text.push_str("end\n")?;
    Ok(text)
}
