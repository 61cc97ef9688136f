//! What a desk asks the servers.
ghost use Rattle.std.specs.Prelude.{◌≡◌};
ghost use Rattle.client_core.specs.Requests.{plain_request};
ghost use Rattle.kept_ledger.specs.Ledgers.{request_of, task_in};

use client_core::Request;

/// What a desk asks the servers. A box of the desk's own goes by its place among them, counted from 0 in the
/// order in which it got them.
#[derive(Clone, Copy, Debug, PartialEq, Eq)]
pub enum Task {
    /// A box at this address.
    Register(u128),
    /// What this box holds; it is empty then.
    Read(u32),
    /// The same for the last time.
    Retire(u32),
}

impl Task {
    /// The request that is made of it.
    pub fn request(&self) -> Request<'static>
        ensures { plain_request result ≡ request_of self.now }
    {
        match *self {
            Task::Register(address) => Request::Register { address },
            Task::Read(own) => Request::Read { own },
            Task::Retire(own) => Request::Retire { own },
        }
    }

    // The task that a request is made of, if it is made of one.
    pub(crate) fn of(request: &Request<'_>) -> Option<Task>
        ensures { result ≡ task_in (plain_request request.now) }
    {
        match *request {
            Request::Register { address } => Some(Task::Register(address)),
            Request::Write { .. } => None,
            Request::Read { own } => Some(Task::Read(own)),
            Request::Retire { own } => Some(Task::Retire(own)),
        }
    }
}
