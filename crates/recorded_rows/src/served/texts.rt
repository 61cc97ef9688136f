//! What became of a connection, in words.
use crate::fault::Result;
use crate::served::step::Step;
use crate::texts::words;
use node_serve::Served;
use std::alloc::Global;

fn served_text(alloc: Global, served: Served) -> Result<String> {
    match served {
        Served::Answered => words(alloc, "answered"),
        Served::Ended => words(alloc, "ended early"),
        Served::ConnFault(count) => Ok(format!(in alloc; "connection fault {count}")?),
        Served::LinkFault(count) => Ok(format!(in alloc; "link fault {count}")?),
        Served::LinkBad => words(alloc, "bad link"),
    }
}

// What the client got; only where it isn't the reply of the step, its bytes.
fn got_text(alloc: Global, got: &[u8], step: &Step) -> Result<String> {
    if got.is_empty() {
        return words(alloc, "got nothing");
    }
    if got == step.reply.as_slice() {
        return words(alloc, "got the reply");
    }
    let digits = hex::encode(alloc, got)?;
    Ok(format!(in alloc; "got {digits}")?)
}

fn waiting_text(alloc: Global, waiting: &[u8], step: &Step) -> Result<String> {
    if waiting.is_empty() {
        return words(alloc, "no command waits");
    }
    match step.number_of(waiting) {
        0 => {
            let digits = hex::encode(alloc, waiting)?;
            Ok(format!(in alloc; "{digits} waits")?)
        }
        number => Ok(format!(in alloc; "command {number} waits")?),
    }
}

impl Step {
    /// The answer, what the client got, and which command waits.
    pub fn told(
        &self,
        alloc: Global,
        served: Served,
        got: &[u8],
        waiting: &[u8],
    ) -> Result<String> {
        let served = served_text(alloc, served)?;
        let got = got_text(alloc, got, self)?;
        let waiting = waiting_text(alloc, waiting, self)?;
        Ok(format!(in alloc; "{served}, {got}, {waiting}")?)
    }
}
