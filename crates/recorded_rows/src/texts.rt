//! Answers as texts.
use crate::fault::Result;
use client_core::{Outcome, Progress};
use client_restart::{Ended, KeptOutcome};
use helper_core::LinkTurn;
use leader_core::{Ack, Turn};
use node_restart::Did;
use std::alloc::Global;

/// These words.
pub(crate) fn words(alloc: Global, text: &str) -> Result<String> {
    Ok(String::from_str(alloc, text)?)
}

/// Bytes in hexadecimal digits; `-` where there are none.
pub(crate) fn bytes_text(alloc: Global, bytes: &[u8]) -> Result<String> {
    if bytes.is_empty() {
        return words(alloc, "-");
    }
    Ok(hex::encode(alloc, bytes)?)
}

/// So many first bytes of a room that was written to; all of it, where it has fewer.
pub(crate) fn front_of(room: &[u8], length: usize) -> &[u8] {
    &room[..length.min(room.len())]
}

/// How many bytes a server wrote.
pub(crate) fn written(did: Did) -> usize {
    match did {
        Did::Replied(length) => length,
        Did::Lead(Turn::Reply(length) | Turn::Link(_, length)) => length,
        Did::Lead(Turn::Waiting(_)) => 0,
        Did::Linked(LinkTurn::Carried(length) | LinkTurn::Repeated(length)) => length,
        Did::Linked(LinkTurn::Ignored) => 0,
        Did::Acked(Ack::Reply(_, length) | Ack::Link(_, length)) => length,
        Did::Acked(Ack::Ignored) => 0,
    }
}

fn outcome_text(alloc: Global, outcome: Outcome, message: &[u8]) -> Result<String> {
    Ok(match outcome {
        Outcome::Registered(number) => format!(in alloc; "registered {number}")?,
        Outcome::Accepted => words(alloc, "accepted")?,
        Outcome::Message => {
            let digits = hex::encode(alloc, message)?;
            format!(in alloc; "message {digits}")?
        }
        Outcome::Refused(refusal) => format!(in alloc; "refused {refusal}")?,
    })
}

/// What a frame did at its client, where a message that was read by it is this one.
pub(crate) fn progress_text(alloc: Global, progress: Progress, message: &[u8]) -> Result<String> {
    match progress {
        Progress::Ignored => words(alloc, "ignored"),
        Progress::Later(refusal) => Ok(format!(in alloc; "later {refusal}")?),
        Progress::Next => words(alloc, "next"),
        Progress::Finished(outcome) => outcome_text(alloc, outcome, message),
    }
}

/// The serial of a request that has ended, and its outcome.
pub(crate) fn ended_text(alloc: Global, ended: &Ended) -> Result<String> {
    let outcome = match &ended.outcome {
        KeptOutcome::Registered(number) => outcome_text(alloc, Outcome::Registered(*number), &[])?,
        KeptOutcome::Accepted => outcome_text(alloc, Outcome::Accepted, &[])?,
        KeptOutcome::Message(bytes) => outcome_text(alloc, Outcome::Message, bytes)?,
        KeptOutcome::Refused(refusal) => outcome_text(alloc, Outcome::Refused(*refusal), &[])?,
    };
    let serial = ended.serial;
    Ok(format!(in alloc; "{serial} {outcome}")?)
}
