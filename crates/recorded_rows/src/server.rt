//! A server of a recording.
use crate::beginning::Beginning;
use crate::fault::{Fault, Result};
use crate::kept::Recorded;
use crate::plain::Plain;
use node_restart::Sender;
use std::alloc::Global;

/// A server without a journal, or with one.
#[derive(Drop)]
pub(crate) enum Server {
    Plain(Plain),
    Recorded(Recorded),
}

impl Server {
    /// A server before its first frame. It has a journal where a limit of that is given.
    pub(crate) fn open(alloc: Global, beginning: Beginning, limit: Option<u32>) -> Result<Server> {
        Ok(match limit {
            None => Server::Plain(Plain::open(alloc, &beginning)?),
            Some(limit) => Server::Recorded(Recorded::open(alloc, beginning, limit)?),
        })
    }

    /// What it answers to a frame.
    pub(crate) fn answer(&mut self, alloc: Global, sender: Sender, frame: &[u8]) -> Result<String> {
        match self {
            Server::Plain(plain) => plain.answer(alloc, sender, frame),
            Server::Recorded(recorded) => recorded.answer(alloc, sender, frame),
        }
    }

    /// The server with a journal that it is.
    pub(crate) fn recorded(&self) -> Result<&Recorded> {
        match self {
            Server::Plain(_) => Err(Fault::Unknown),
            Server::Recorded(recorded) => Ok(recorded),
        }
    }
}
