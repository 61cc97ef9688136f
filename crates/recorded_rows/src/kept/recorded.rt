//! A server of a recording. Between two frames it is only what a crash leaves on its disk.
use crate::beginning::Beginning;
use crate::crashes::{Left, Work, crash_everywhere};
use crate::fault::{Fault, Result};
use crate::kept::kept_server::KeptServer;
use crate::records::records_of;
use crate::texts::bytes_text;
use node_restart::Sender;
use std::alloc::Global;

/// A frame that the server was handed, and what it answered.
#[derive(Drop)]
struct Step {
    sender: Sender,
    frame: Vec<u8>,
    answer: Vec<u8>,
}

/// How a server began, the limit of its journal in bytes, what its disk holds now, and its frames so far.
#[derive(Drop)]
pub struct Recorded {
    beginning: Beginning,
    limit: u32,
    disk: Vec<u8>,
    steps: Vec<Step>,
}

// How many frames are answered, up to the first that meets a fault.
fn answered_of(alloc: Global, server: &mut KeptServer, steps: &[Step]) -> Result<usize> {
    for (place, step) in steps.iter().enumerate() {
        match server.answer(alloc, step.sender, &step.frame) {
            Ok(_) => {}
            Err(Fault::Journal(_)) => return Ok(place),
            Err(fault) => return Err(fault),
        }
    }
    Ok(steps.len())
}

// Whether these frames are answered as they were.
fn answers_alike(alloc: Global, server: &mut KeptServer, steps: &[Step]) -> Result<bool> {
    for step in steps {
        if server.answer(alloc, step.sender, &step.frame)?.as_slice() != step.answer.as_slice() {
            return Ok(false);
        }
    }
    Ok(true)
}

impl Recorded {
    /// A server before its first frame.
    pub fn open(alloc: Global, beginning: Beginning, limit: u32) -> Result<Recorded> {
        let server = KeptServer::create(alloc, &beginning, limit, 0, &[])?;
        Ok(Recorded {
            beginning,
            limit,
            disk: server.left(alloc)?,
            steps: Vec::new(alloc),
        })
    }

    /// What it answers to a frame, opened again from its disk.
    pub fn answer(&mut self, alloc: Global, sender: Sender, frame: &[u8]) -> Result<String> {
        let mut server = KeptServer::reopen(alloc, &self.disk, self.limit)?;
        let answer = server.answer(alloc, sender, frame)?;
        self.disk = server.left(alloc)?;
        let text = bytes_text(alloc, &answer)?;
        let frame = Vec::from_slice(alloc, frame)?;
        self.steps.push(Step {
            sender,
            frame,
            answer,
        })?;
        Ok(text)
    }

    /// The share of a box, opened again from its disk.
    pub fn share(&self, alloc: Global, box_number: u32) -> Result<String> {
        KeptServer::reopen(alloc, &self.disk, self.limit)?.share(alloc, box_number)
    }

    // Whether the server that is opened again from a disk with so many frames is their fold: it answers the others as they
    // were answered, and then its disk has each frame once.
    fn goes_on_from(&self, alloc: Global, disk: &[u8], frames: usize) -> Result<bool> {
        let steps = self.steps.as_slice();
        let (_, others) = steps.split_at(frames.min(steps.len()));
        let mut server = KeptServer::reopen(alloc, disk, self.limit)?;
        let answered = answers_alike(alloc, &mut server, others)?;
        Ok(answered && server.left(alloc)?.as_slice() == self.disk.as_slice())
    }

    /// What the crashes of its disk leave.
    pub fn crashes(&self, alloc: Global) -> Result<String> {
        let tally = crash_everywhere(alloc, self)?;
        let (crashes, with, without) = (tally.crashes, tally.with, tally.without);
        Ok(format!(in alloc;
            "{crashes} crashes, {with} with the frame under way, {without} without it"
        )?)
    }
}

impl Work for Recorded {
    fn disk(&self) -> &[u8] {
        &self.disk
    }

    fn crash(&self, alloc: Global, call: u64, arriving: &[u8]) -> Result<Option<Left>> {
        let made = KeptServer::create(alloc, &self.beginning, self.limit, call, arriving);
        let mut server = match made {
            Ok(server) => server,
            Err(Fault::Journal(_)) => return Ok(None),
            Err(fault) => return Err(fault),
        };
        let answered = answered_of(alloc, &mut server, &self.steps)?;
        let disk = server.left(alloc)?;
        let records = records_of(alloc, &disk)?.len();
        Ok(Some(Left {
            before: answered.saturating_add(1),
            records,
            alike: self.goes_on_from(alloc, &disk, records.saturating_sub(1))?,
            again: false,
        }))
    }
}
