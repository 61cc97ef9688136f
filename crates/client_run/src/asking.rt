//! The requests of settings, as a client takes them.
ghost use Rattle.std.specs.Prelude.{◌≡◌, map, IfOk};
ghost use Rattle.client_core.specs.Requests.{plain_request};
ghost use Rattle.client_run.specs.Accounts.{request_of};

use client_core::Request;
use express_words::NoMemory;
use settings_text::Asking;
use std::alloc::Global;

fn request_of(asking: &Asking) -> Request<'_>
    ensures { plain_request result ≡ request_of asking.now }
{
    match asking {
        Asking::Register(address) => Request::Register { address: *address },
        Asking::Write(target, message) => Request::Write {
            target: *target,
            message: message.as_slice(),
        },
        Asking::Read(own) => Request::Read { own: *own },
        Asking::Retire(own) => Request::Retire { own: *own },
    }
}

/// The requests in order.
pub fn requests_of(alloc: Global, askings: &[Asking]) -> Result<Vec<Request<'_>>, NoMemory>
    ensures { IfOk result (λ requests. map plain_request requests.items ≡ map request_of askings.now) }
{
    let mut requests = Vec::new(alloc);
    for asking in askings {
        requests.push(request_of(asking))?;
    }
    Ok(requests)
}
