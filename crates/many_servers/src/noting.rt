//! What a server's log takes of a client's frame.
ghost use Rattle.std.specs.Prelude.{◌≡◌, ◌<◌, ◌≤◌, ◌∷◌, IfSome, length, take};
ghost use Rattle.http_door.specs.Requests.{plain_request};
ghost use Rattle.many_conns.specs.Rules.{written};
ghost use Rattle.many_servers.specs.Doors.{client_record, frame_noted, record_if};
ghost use Rattle.many_servers.specs.Passing.{takes_bytes};

use crate::passing::takes_bytes;
use http_door::Request;
use lane_gate::{LaneGate, StatementHash, Ticket};

/// Writes a tag and bytes to the front of a buffer, and gives their length.
pub(crate) fn put_tagged(tag: u8, bytes: &[u8], out: &mut [u8]) -> usize
    requires room { length bytes.now < length out.old }
    ensures written { take result out.new ≡ tag ∷ bytes.now }
    ensures within { result ≤ length out.new }
    ensures length { length out.new ≡ length out.old }
{
    let end = 1 + bytes.len();
    out[..1].copy_from_slice(&[tag]);
    out[1..end].copy_from_slice(bytes);
    end
}

/// Writes bytes to the front of a buffer, and gives their length.
pub(crate) fn put(bytes: &[u8], out: &mut [u8]) -> usize
    requires room { length bytes.now ≤ length out.old }
    ensures written { take result out.new ≡ bytes.now }
    ensures within { result ≤ length out.new }
    ensures length { length out.new ≡ length out.old }
{
    out[..bytes.len()].copy_from_slice(bytes);
    bytes.len()
}

// Writes the record of a client's frame, if it is taken.
fn note_bytes(
    gate: &LaneGate,
    ticket: Ticket,
    statement: Option<StatementHash>,
    frame: &[u8],
    out: &mut [u8],
) -> Option<usize>
    requires room { 8214 ≤ length out.old }
    ensures within { IfSome result (λ n. n ≤ length out.new) }
    ensures length { length out.new ≡ length out.old }
    ensures noted { written result out.new ≡ record_if
        (takes_bytes gate.now ticket statement frame.now)
        (client_record frame.now) }
{
    if takes_bytes(gate, ticket, statement, frame) {
        Some(put_tagged(1, frame, out))
    } else {
        None
    }
}

/// Writes the record of the frame that a client asks to be taken, if it is.
pub(crate) fn note_frame(gate: &LaneGate, request: &Request<'_>, out: &mut [u8]) -> Option<usize>
    requires room { 8214 ≤ length out.old }
    ensures within { IfSome result (λ n. n ≤ length out.new) }
    ensures length { length out.new ≡ length out.old }
    ensures noted { written result out.new ≡ frame_noted gate.now (plain_request request.now) }
{
    match *request {
        Request::Frame { ticket, frame } => note_bytes(gate, ticket, None, frame, out),
        Request::Proof {
            ticket,
            statement,
            frame,
        } => note_bytes(gate, ticket, Some(statement), frame, out),
        Request::Lease { .. } => None,
    }
}
