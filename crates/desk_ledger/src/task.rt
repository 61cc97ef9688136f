//! What a desk asks the servers.
ghost use Rattle.std.specs.Prelude.{◌≡◌};
ghost use Rattle.client_core.specs.Requests.{plain_request};
ghost use Rattle.desk_ledger.specs.Tasks.{request_of};

use client_core::Request;

/// What a desk asks the servers. A box of the desk's own goes by its place among them, counted from 0 in the
/// order in which it got them.
#[derive(Clone, Copy, Debug, PartialEq, Eq)]
pub enum Task {
    /// A box at this address.
    Register(u128),
    /// What this box holds; it is empty then.
    Read(u32),
    /// The same for the last time.
    Retire(u32),
}

impl Task {
    /// The request that is made of it.
    pub fn request(&self) -> Request<'static>
        ensures { plain_request result ≡ request_of self.now }
    {
        match *self {
            Task::Register(address) => Request::Register { address },
            Task::Read(own) => Request::Read { own },
            Task::Retire(own) => Request::Retire { own },
        }
    }
}
