//! What a frame of a client does to the slots of all lanes.
ghost use Rattle.std.specs.Prelude.{◌≡◌, length};
ghost use Rattle.frame_rules.specs.Frames.{plain, plain_body};
ghost use Rattle.frame_rules.specs.Spelling.{IsFrame};
ghost use Rattle.frame_rules.specs.Whole.{IsAnswer};
ghost use Rattle.step_rules.specs.HelperClients.{client_turn};
ghost use Rattle.helper_core.specs.Slots.{answer_in, taken_turn, turn_in, AtRows, StaySlots};

use crate::slot::HelperSlot;
use crate::taken::{ClientBody, brought_by};
use express_words::Refusal;
use frame_rules::{Body, Frame};
use wire_frames::{Received, answer, refused_bytes};

/// What a deposit or a proof does at the slot of its lane.
fn at_lane(
    slots: &mut [HelperSlot],
    lanes: u16,
    frame: &Frame<'_>,
    brought: &ClientBody,
) -> Body<'static>
    requires lanes { length slots.old ≡ lanes }
    ensures turn { AtRows lanes slots.old (λ h. taken_turn h (plain frame.now) brought.now
        ≡ answer_in h slots.new (plain frame.now) (plain_body result)) }
    ensures answer { IsAnswer (plain_body result) }
    ensures slots { StaySlots slots.old slots.new }
{
    if frame.lane >= lanes {
        return Body::Refused(Refusal::Lane(lanes));
    }
    let slot = &mut slots[usize::from(frame.lane)];
    match *brought {
        ClientBody::Deposit(held) => slot.deposit(frame.serial, held),
        ClientBody::Proof(share) => slot.prove(frame.serial, share),
    }
}

/// What the helper answers to bytes from a client. The slot of the frame's lane alone may change.
pub(crate) fn answer_client(
    slots: &mut [HelperSlot],
    lanes: u16,
    received: &Received<'_>,
) -> Frame<'static>
    requires lanes { length slots.old ≡ lanes }
    ensures turn { AtRows lanes slots.old
        (λ h. client_turn h received.now ≡ turn_in h slots.new (plain result)) }
    ensures is_frame { IsFrame (plain result) }
    ensures slots { StaySlots slots.old slots.new }
{
    match received.frame() {
        Err(refusal) => refused_bytes(refusal),
        Ok(frame) => match brought_by(&frame.body) {
            None => refused_bytes(Refusal::Malformed(5)),
            Some(brought) => {
                let body = at_lane(slots, lanes, &frame, &brought);
                answer(&frame, &body)
            }
        },
    }
}
