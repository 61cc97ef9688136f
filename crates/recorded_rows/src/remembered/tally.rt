//! What the crashes of the client's disk leave.
use crate::crashes::{Left, Tally, Work, crash_everywhere};
use crate::fault::{Fault, Result};
use crate::remembered::run::{WorkedOff, run};
use std::alloc::Global;

// Whether these are the outcomes, of which any may be told again right after it was told.
fn are_told(told: &[String], outcomes: &[String]) -> bool {
    let mut rest = outcomes;
    let mut last = "";
    for text in told {
        if text.as_str() == last {
            continue;
        }
        let [next, others @ ..] = rest else {
            return false;
        };
        if text.as_str() != next.as_str() {
            return false;
        }
        last = next.as_str();
        rest = others;
    }
    rest.is_empty()
}

impl Work for WorkedOff {
    fn disk(&self) -> &[u8] {
        &self.disk
    }

    fn crash(&self, alloc: Global, call: u64, arriving: &[u8]) -> Result<Option<Left>> {
        let Some(crashed) = run(alloc, call, arriving)? else {
            return Ok(None);
        };
        let Some(records) = crashed.left else {
            return Ok(None);
        };
        let is_same_disk = crashed.disk.as_slice() == self.disk.as_slice();
        Ok(Some(Left {
            before: records,
            records,
            alike: is_same_disk && are_told(&crashed.told, &self.told),
            again: crashed.told.len() > self.told.len(),
        }))
    }
}

fn lines_of(alloc: Global, told: &[String]) -> Result<String> {
    let mut text = String::new(alloc);
    for line in told {
        text.push_str(line.as_str())?;
        text.push('\n')?;
    }
    Ok(text)
}

fn add_counts(mut text: String, tally: &Tally) -> Result<String> {
    let (crashes, with, alike, again) = (tally.crashes, tally.with, tally.alike, tally.again);
    write!(
        text,
        "{crashes} crashes, {with} with the note under way, {alike} with the same end, {again} told again\n"
    )?;
    Ok(text)
}

/// The outcomes with no crash, and the counts of the crashes.
pub fn report(alloc: Global) -> Result<String> {
    let plain = run(alloc, 0, &[])?.ok_or(Fault::Unknown)?;
    let tally = crash_everywhere(alloc, &plain)?;
    let text = lines_of(alloc, &plain.told)?;
    add_counts(text, &tally)
}
