//! How long the body of a request is.
ghost use Rattle.std.specs.Prelude.{◌≡◌, ◌≤◌, IfOk, MatchResult};
ghost use Rattle.http_door.specs.Heads.{body_len, body_max};

use crate::fault::DoorFault;
use crate::limits::BODY_MAX;
use http1::framing::Framing;

pub(crate) const POST: &[u8] = b"POST";

/// The length that the head states, where it is one that is taken.
pub(crate) fn body_len(method: &[u8], framing: Framing) -> Result<usize, DoorFault>
    ensures len { result ≡ body_len method.now framing }
    ensures short { IfOk result (λ n. n ≤ body_max) }
{
    match framing {
        Framing::NoBody if method == POST => Err(DoorFault::NoLength),
        Framing::NoBody => Ok(0),
        Framing::Length(n) if n <= BODY_MAX as u64 => Ok(n as usize),
        Framing::Length(_) => Err(DoorFault::LongBody),
        Framing::Chunked | Framing::UntilClose => Err(DoorFault::NoLength),
    }
}
