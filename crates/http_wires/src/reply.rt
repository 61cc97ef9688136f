//! An answer as the response that goes out.
ghost use Rattle.std.specs.Prelude.{◌≡◌, ◌≤◌, length, IfSome, IfNone};
ghost use Rattle.http_wires.specs.Replies.{IsResponse, NoResponse, origin_of};

use door_asks::read_answer;
use http_door::{HeaderValue, write};

/// The most bytes of a response: those of an answer, and its head.
pub const TEXT_MAX: usize = 17408;

/// Writes the response of an answer for pages of this origin, if it is a value, and tells how many bytes it is. None: these
/// bytes are no answer, or its response is longer than the buffer.
pub fn respond(answer: &[u8], origin: &[u8], keeps: bool, out: &mut [u8]) -> Option<usize>
    requires { length out.old ≡ 17408 }
    ensures response { IfSome result (λ n. IsResponse answer.now (origin_of origin.now) keeps n out.new) }
    ensures within { IfSome result (λ n. n ≤ length out.new) }
    ensures none { IfNone result (NoResponse answer.now (origin_of origin.now) keeps) }
{
    let reply = read_answer(answer)?;
    let value = HeaderValue::of(origin);
    write(&reply, value.as_ref(), keeps, out)
}
