//! What a request was.
ghost use Rattle.std.specs.Prelude.{◌≡◌};
ghost use Rattle.client_core.specs.Requests.{plain_request};
ghost use Rattle.client_restart.specs.Steps.{errand_of};

use client_core::Request;

/// A request without the message of a write. A read or a retire names one of the client's own boxes, counted
/// from 0 in the order in which it got them.
#[derive(Clone, Copy, Debug, PartialEq, Eq)]
pub enum Errand {
    Register(u128),
    Write(u128),
    Read(u32),
    Retire(u32),
}

impl Errand {
    /// The request without its message.
    pub fn of(request: &Request<'_>) -> Errand
        ensures { result ≡ errand_of (plain_request request.now) }
    {
        match *request {
            Request::Register { address } => Errand::Register(address),
            Request::Write { target, .. } => Errand::Write(target),
            Request::Read { own } => Errand::Read(own),
            Request::Retire { own } => Errand::Retire(own),
        }
    }
}
