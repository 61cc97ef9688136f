//! How asks are answered of which a server's log takes nothing.
ghost use Rattle.std.specs.Prelude.{◌≡◌, option_map};
ghost use Rattle.http_door.specs.Hearing.{plain_asked};
ghost use Rattle.http_door.specs.Replies.{plain_reply};
ghost use Rattle.http_door.specs.Requests.{plain_request};
ghost use Rattle.many_servers.specs.Doors.{is_proof, refused_ask, refused_request};

use http_door::{Asked, DoorFault, Reply, Request};

/// Whether a proof is asked to be taken.
pub(crate) fn is_proof(asked: &Option<Asked<'_>>) -> bool
    ensures { result ≡ is_proof (option_map plain_asked asked.now) }
{
    match asked {
        Some(Asked::Request(Request::Proof { .. })) => true,
        _ => false,
    }
}

fn refused_request(request: &Request<'_>) -> Reply<'static>
    ensures { plain_reply result ≡ refused_request (plain_request request.now) }
{
    match request {
        Request::Frame { .. } | Request::Proof { .. } => Reply::NotYours,
        Request::Lease { .. } => Reply::Refused(DoorFault::NoPath),
    }
}

/// The answer to an ask that isn't taken.
pub(crate) fn refused_ask(asked: &Option<Asked<'_>>) -> Reply<'static>
    ensures { plain_reply result ≡ refused_ask (option_map plain_asked asked.now) }
{
    match asked {
        None => Reply::Refused(DoorFault::Malformed),
        Some(Asked::Request(request)) => refused_request(request),
        Some(Asked::Preflight) => Reply::Preflight,
        Some(Asked::Refused(why)) => Reply::Refused(*why),
    }
}
