//! Which bytes a gated server hands to its core.
ghost use Rattle.std.specs.Prelude.{◌≡◌, ◌↔◌, IsSome, IfSome, true};
ghost use Rattle.frame_rules.specs.Whole.{whole};
ghost use Rattle.lane_gate.specs.Holders.{has_request};
ghost use Rattle.gated_servers.specs.Frames.{is_frame, lane_in, passes_link, request_open};

use lane_gate::{Holder, LaneGate, pass_command};
use wire_frames::Received;

// Whether somebody may send frames of this serial: an owner who has a key any, a stranger those of its lease.
fn has_request(holder: &Holder, serial: u32) -> bool
    ensures { result ≡ has_request holder.now serial }
{
    match holder {
        Holder::Keyless | Holder::Free => false,
        Holder::Owner(_) => true,
        Holder::Leased(lease) => serial == lease.serial,
    }
}

/// The lane of a client's frame, if somebody may send frames of its lane and serial.
pub(crate) fn is_open(gate: &LaneGate, received: &Received<'_>) -> Option<u16>
    ensures open { IsSome result ↔ (request_open gate.now (whole received.now) ≡ true) }
    ensures lane { IfSome result (λ lane. lane ≡ lane_in (whole received.now)) }
{
    let Ok(frame) = received.frame() else {
        return None;
    };
    if has_request(&gate.row(frame.lane).holder, frame.serial) {
        Some(frame.lane)
    } else {
        None
    }
}

/// The lane of a frame of the leader that is handed on: a command, but no audit at the point 1 or 2.
pub(crate) fn is_command(received: &Received<'_>) -> Option<u16>
    ensures passed { IsSome result ↔ (passes_link (whole received.now) ≡ true) }
    ensures lane { IfSome result (λ lane. lane ≡ lane_in (whole received.now)) }
{
    let Ok(frame) = received.frame() else {
        return None;
    };
    match pass_command(&frame) {
        Ok(()) => Some(frame.lane),
        Err(_) => None,
    }
}

/// The lane of bytes that are one frame.
pub(crate) fn frame_lane(received: &Received<'_>) -> Option<u16>
    ensures frame { IsSome result ↔ (is_frame (whole received.now) ≡ true) }
    ensures lane { IfSome result (λ lane. lane ≡ lane_in (whole received.now)) }
{
    match received.frame() {
        Ok(frame) => Some(frame.lane),
        Err(_) => None,
    }
}
