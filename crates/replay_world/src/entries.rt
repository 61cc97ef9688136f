//! What the journal notes of a command that was carried out.
ghost use Rattle.std.specs.Prelude.{◌≡◌, ◌++◌, Ok, OnOk};
ghost use Rattle.frame_rules.specs.Frames.{PlainFrame, plain, plain_body, plain_reply, LinkReply};
ghost use Rattle.frame_rules.specs.Whole.{whole as whole_bytes};
ghost use Rattle.run_rules.specs.Run.{journal_line, value_of};
ghost use Rattle.step_tokens.specs.Commands.{command_of};
ghost use Rattle.replay_world.specs.Parts.{command_in, journal_in, line_in, value_in};
ghost use Rattle.replay_world.specs.Posts.{lines_for, lines_in};

use crate::lines::{Command, Entry, JournalLine};
use express_words::NoMemory;
use frame_rules::{Body, Frame, ReplyBody};
use wire_frames::whole;

fn command_of(body: &Body<'_>) -> Command
    ensures { command_in result ≡ command_of (plain_body body.now) }
{
    match body {
        Body::LinkRegister { .. } => Command::Register,
        Body::LinkBegin { .. } => Command::Begin,
        Body::LinkAudit { .. } => Command::Audit,
        Body::LinkSettle(_) => Command::Settle,
        Body::LinkRetire { .. } => Command::Retire,
        _ => Command::Read,
    }
}

// What a command came to, by its body and its reply's.
#[tactic(auto, unfolding(run_rules::specs::Run::value_of))]
fn entry_of(command: &Body<'_>, reply: &ReplyBody<'_>) -> Entry
    ensures { value_in result ≡ value_of (plain_body command.now) (LinkReply (plain_reply reply.now)) }
{
    match (*command, *reply) {
        (_, ReplyBody::Registered(n)) => Entry::Registered(n),
        (_, ReplyBody::Refused(refusal)) => Entry::Refused(command_of(command), refusal),
        (Body::LinkAudit { opened, .. }, ReplyBody::Audited(helpers, closing)) => {
            Entry::Audited(opened, helpers, closing)
        }
        (Body::LinkSettle(leaders), ReplyBody::Accepted) => Entry::Settled(true, leaders),
        (Body::LinkSettle(leaders), ReplyBody::Rejected) => Entry::Settled(false, leaders),
        (Body::LinkRead { box_number }, ReplyBody::Masked(_)) => Entry::WasRead(box_number),
        (Body::LinkRetire { box_number }, ReplyBody::Masked(_)) => Entry::Retired(box_number),
        _ => Entry::Began(0),
    }
}

#[tactic(auto, unfolding(run_rules::specs::Run::value_of))]
fn entry_for(command: &Body<'_>, reply: &Body<'_>) -> Entry
    ensures { value_in result ≡ value_of (plain_body command.now) (plain_body reply.now) }
{
    match reply {
        Body::LinkBegun { count, .. } => Entry::Began(*count),
        Body::LinkReply(reply) => entry_of(command, reply),
        _ => Entry::Began(0),
    }
}

/// The journal's line of a command and its reply, where each is exactly one frame.
pub fn journal_line(command: &[u8], reply: &[u8]) -> Option<JournalLine>
    ensures { (r : PlainFrame) → whole_bytes reply.now ≡ Ok r → lines_in result ≡ lines_for (whole_bytes command.now) r }
{
    match (whole(command), whole(reply)) {
        (Ok(command), Ok(reply)) => Some(line_of(&command, &reply)),
        _ => None,
    }
}

/// Notes the line in the journal, if there is one.
pub fn note(journal: &mut Vec<JournalLine>, line: Option<JournalLine>) -> Result<(), NoMemory>
    ensures { OnOk result (journal_in journal.new.items ≡ journal_in journal.old.items ++ lines_in line) }
{
    if let Some(line) = line {
        journal.push(line)?;
    }
    Ok(())
}

fn line_of(command: &Frame<'_>, reply: &Frame<'_>) -> JournalLine
    ensures { line_in result ≡ journal_line (plain command.now) (plain reply.now) }
{
    JournalLine {
        lane: command.lane,
        serial: command.serial,
        entry: entry_for(&command.body, &reply.body),
    }
}
