//! What is told of a finished request.
ghost use Rattle.std.specs.Prelude.{◌≡◌, IfOk};
ghost use Rattle.node_client.specs.Work.{line};

use client_core::Outcome;
use express_words::{List, NoMemory};
use std::alloc::Global;

/// What a client is told of a request.
#[derive(Clone, Copy, Debug, PartialEq, Eq)]
pub enum Told {
    /// It came to an end at the servers, with this outcome.
    Done(Outcome),
    /// The client owns no box of this number, and sent nothing.
    NoOwn(u32),
}

/// What became of a request, by its number among those to be worked off, counted from 0.
#[derive(Drop)]
pub struct Finished {
    pub request: usize,
    pub told: Told,
    /// The bytes of a message; else none.
    pub message: List<u8>,
}

/// What became of the request of this number, with the message where it read one.
pub fn line(alloc: Global, request: usize, told: Told, message: &[u8]) -> Result<Finished, NoMemory>
    ensures { IfOk result (λ f. f ≡ line request message.now told) }
{
    let message = match told {
        Told::Done(Outcome::Message) => Vec::from_slice(alloc, message)?,
        _ => Vec::new(alloc),
    };
    Ok(Finished {
        request,
        told,
        message: List::from_vec(message),
    })
}
