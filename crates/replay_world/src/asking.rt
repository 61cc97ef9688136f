//! What a client is asked, and the clients of all lanes.
ghost use Rattle.std.specs.Prelude.{◌≡◌, length, IfOk};
ghost use Rattle.client_core.specs.Requests.{plain_request};
ghost use Rattle.replay_world.specs.Parts.{request_in};
ghost use Rattle.replay_world.specs.View.{AreFresh};

use crate::asker::Asker;
use client_core::Request;
use express_words::NoMemory;
use schedule_text::{Asked, Header};
use std::alloc::Global;

/// The request that a client is asked.
pub fn request_of(asked: &Asked) -> Request<'_>
    ensures { plain_request result ≡ request_in asked.now }
{
    match asked {
        Asked::Register(address) => Request::Register { address: *address },
        Asked::Write(target, message) => Request::Write {
            target: *target,
            message: message.as_slice(),
        },
        Asked::Read(own) => Request::Read { own: *own },
        Asked::Retire(own) => Request::Retire { own: *own },
    }
}

/// A client for each lane.
pub fn all_askers(alloc: Global, header: &Header) -> Result<Vec<Asker>, NoMemory>
    ensures count { IfOk result (λ askers. length askers.items ≡ header.now.settings.lanes) }
    ensures fresh { IfOk result (λ askers. AreFresh header.now askers.items) }
{
    let mut askers = Vec::new(alloc);
    for lane in 0..header.settings.lanes {
        askers.push(Asker::open(alloc, header, lane)?)?;
    }
    Ok(askers)
}
