//! The lines that a run prints.
ghost use Rattle.std.specs.Prelude.{◌≡◌, ◌++◌, IfOk, OnOk, codes, flat_map, string_bytes};
ghost use Rattle.client_run.specs.Texts.{told_text, outcome_line, end_line};

use client_core::{no_box_text, outcome_text};
use node_client::{Finished, Stop, Told};
use std::alloc::{AllocError, Global};

fn told_text(alloc: Global, told: Told, message: &[u8]) -> Result<String, AllocError>
    ensures { IfOk result (λ text. string_bytes text ≡ told_text told message.now) }
{
    match told {
        Told::Done(outcome) => outcome_text(alloc, outcome, message),
        Told::NoOwn(own) => no_box_text(alloc, own),
    }
}

/// The line of a request that came to its end.
#[tactic(auto, unfolding(crate::specs::Texts::outcome_line))]
pub fn outcome_line(alloc: Global, finished: &Finished) -> Result<String, AllocError>
    ensures { IfOk result (λ text. string_bytes text ≡ outcome_line finished.now) }
{
    let request = finished.request;
    let told = told_text(alloc, finished.told, finished.message.as_slice())?;
    format!(in alloc; "outcome {request} {told}\n")
}

/// A line for each request that came to its end.
pub fn add_outcomes(
    alloc: Global,
    text: &mut String,
    finished: &[Finished],
) -> Result<(), AllocError>
    ensures { OnOk result (string_bytes text.new
        ≡ string_bytes text.old ++ flat_map outcome_line finished.now) }
{
    for one in finished {
        let line = outcome_line(alloc, one)?;
        text.push_str(line.as_str())?;
    }
    Ok(())
}

/// The last line, by how the work ended.
pub fn end_line(alloc: Global, end: Result<(), Stop>) -> Result<String, AllocError>
    ensures { IfOk result (λ text. string_bytes text ≡ end_line end) }
{
    match end {
        Ok(()) => format!(in alloc; "end\n"),
        Err(Stop::Fault(_)) => format!(in alloc; "net fault\n"),
        Err(why) => format!(in alloc; "stopped {why}\n"),
    }
}
