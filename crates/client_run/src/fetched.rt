//! The text of a file that is fetched.
ghost use Rattle.std.specs.Prelude.{◌≡◌, ◌≤◌, ◌++◌, [], length, IfOk, OnOk, string_bytes};
ghost use Rattle.file_carry.specs.Parts.{IsPartWidth};
ghost use Rattle.file_carry.specs.Boxes.{join};
ghost use Rattle.client_run.specs.Carries.{is_message, box_line, box_lines, boxes_of, AreWhole};
ghost use Rattle.client_run.specs.Carries.{joined_text, fetch_text};

use crate::carrying::{CarriedOff, CarryHalt};
use crate::texts::{end_line, outcome_line};
use client_core::Outcome;
use express_words::NoMemory;
use file_carry::{Joiner, Missing};
use node_client::{Finished, Told};
use std::alloc::{AllocError, Global};

fn is_message(told: Told) -> bool
    ensures { result ≡ is_message told }
{
    match told {
        Told::Done(Outcome::Message) => true,
        _ => false,
    }
}

#[tactic(auto, unfolding(crate::specs::Carries::box_line))]
fn box_line(alloc: Global, finished: &Finished) -> Result<String, AllocError>
    ensures { IfOk result (λ text. string_bytes text ≡ box_line finished.now) }
{
    let request = finished.request;
    let digits = hex::encode(alloc, finished.message.as_slice())?;
    format!(in alloc; "box {request} {digits}\n")
}

// A line for each box that was read.
fn add_boxes(alloc: Global, text: &mut String, finished: &[Finished]) -> Result<(), AllocError>
    ensures { OnOk result (string_bytes text.new ≡ string_bytes text.old ++ box_lines finished.now) }
{
    for one in finished {
        if is_message(one.told) {
            let line = box_line(alloc, one)?;
            text.push_str(line.as_str())?;
        }
    }
    Ok(())
}

// The joiner takes the boxes that were read.
fn take_boxes(joiner: &mut Joiner, finished: &[Finished])
    requires room { length finished.now ≤ joiner.old.most }
    requires empty { joiner.old.taken ≡ [] }
    requires whole { AreWhole joiner.old.width finished.now }
    ensures { joiner.new.taken ≡ boxes_of finished.now }
{
    for one in finished {
        if is_message(one.told) {
            joiner.take(one.message.as_slice());
        }
    }
}

// The file that the boxes join to, or the first of them that is missing and what each box holds.
fn add_joined(
    alloc: Global,
    text: &mut String,
    finished: &[Finished],
    boxes: u32,
    width: u32,
) -> Result<(), NoMemory>
    requires least { 1 ≤ boxes }
    requires most { boxes ≤ 4096 }
    requires width { IsPartWidth width }
    requires few { length finished.now ≤ boxes }
    requires whole { AreWhole width finished.now }
    ensures { OnOk result (string_bytes text.new
        ≡ string_bytes text.old ++ joined_text finished.now (join (boxes_of finished.now))) }
{
    let mut joiner = Joiner::open(alloc, boxes, width)?;
    take_boxes(&mut joiner, finished);
    match joiner.finish() {
        Ok(file) => {
            let digits = hex::encode(alloc, file)?;
            let line = format!(in alloc; "file {digits}\n")?;
            text.push_str(line.as_str())?;
        }
        Err(Missing(index)) => {
            let line = format!(in alloc; "missing {index}\n")?;
            text.push_str(line.as_str())?;
            add_boxes(alloc, text, finished)?;
        }
    }
    Ok(())
}

/// The text of a file that was fetched from so many boxes of this width.
#[tactic(auto, unfolding(crate::specs::Carries::fetch_text))]
pub fn fetch_text(
    alloc: Global,
    carried: &CarriedOff,
    boxes: u32,
    width: u32,
) -> Result<String, NoMemory>
    requires least { 1 ≤ boxes }
    requires most { boxes ≤ 4096 }
    requires width { IsPartWidth width }
    requires few { length carried.now.finished.items ≤ boxes }
    requires whole { AreWhole width carried.now.finished.items }
    ensures { IfOk result (λ text.
        string_bytes text ≡ fetch_text carried.now.finished.items carried.now.end) }
{
    let finished = carried.finished.as_slice();
    let mut text = String::new(alloc);
    match &carried.end {
        Ok(()) => {
            add_joined(alloc, &mut text, finished, boxes, width)?;
            text.push_str("end\n")?;
        }
        Err(CarryHalt::Broken(broken)) => {
            let line = outcome_line(alloc, broken)?;
            text.push_str(line.as_str())?;
            add_boxes(alloc, &mut text, finished)?;
            text.push_str("stopped outcome\n")?;
        }
        Err(CarryHalt::Stopped(why)) => {
            add_boxes(alloc, &mut text, finished)?;
            let line = end_line(alloc, Err(*why))?;
            text.push_str(line.as_str())?;
        }
    }
    Ok(text)
}
