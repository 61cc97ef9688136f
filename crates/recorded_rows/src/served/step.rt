//! What a client sends, and what it is to get.
use crate::fault::Result;
use crate::fields::{bytes_of, first_of};
use crate::texts::words;
use std::alloc::Global;

/// A command of the leader, and the helper's answer.
#[derive(Drop)]
pub struct Exchange {
    pub command: Vec<u8>,
    pub answer: Vec<u8>,
}

/// A frame of a client, the reply that it is to get, and the exchanges that the leader is to make for it.
#[derive(Drop)]
pub struct Step {
    pub name: String,
    pub frame: Vec<u8>,
    pub reply: Vec<u8>,
    pub exchanges: Vec<Exchange>,
}

impl Exchange {
    /// A command and its answer.
    pub fn of(alloc: Global, text: &str) -> Result<Exchange> {
        let (command, answer) = first_of(text)?;
        Ok(Exchange {
            command: bytes_of(alloc, command)?,
            answer: bytes_of(alloc, answer)?,
        })
    }
}

impl Step {
    /// A name, a frame and its reply, with these exchanges.
    pub fn of(alloc: Global, text: &str, exchanges: Vec<Exchange>) -> Result<Step> {
        let (name, text) = first_of(text)?;
        let (frame, reply) = first_of(text)?;
        Ok(Step {
            name: words(alloc, name)?,
            frame: bytes_of(alloc, frame)?,
            reply: bytes_of(alloc, reply)?,
            exchanges,
        })
    }

    /// The number, from 1 on, of the exchange with this command; 0 where there is none.
    pub fn number_of(&self, command: &[u8]) -> usize {
        match self
            .exchanges
            .iter()
            .position(|e| e.command.as_slice() == command)
        {
            None => 0,
            Some(place) => place + 1,
        }
    }
}
