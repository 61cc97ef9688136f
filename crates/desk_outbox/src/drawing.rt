//! The lane and the first serial of a try.
ghost use Rattle.std.specs.Prelude.{◌≡◌, ◌≢◌, ◌≤◌, ◌<◌, ◌+◌, ◌%◌, ◌^◌, IfSome, None};
ghost use Rattle.rand_core.specs.Stream.{next_u32, next_u64};
ghost use Rattle.desk_draws.specs.Streams.{behind, stream_from};
ghost use Rattle.desk_texts.specs.Spelling.{IsCard};
ghost use Rattle.desk_outbox.specs.Drawing.{behind_next, behind_other, known_of, lane_in, next_in, other_in, serial_in, short_in};

use desk_draws::Draws;
use desk_texts::CardHead;
use desk_tries::{Answer, highest_named, lane_among, next_lane, serial_above};
use express_words::Refusal;

// A serial on a lane of which none is known.
fn first_serial(draws: &mut Draws) -> u32
    ensures value { result ≡ short_in (stream_from draws.old) }
    ensures behind { stream_from draws.new ≡ behind next_u32 (stream_from draws.old) }
    ensures least { 1 ≤ result }
{
    match serial_above(0, draws.short()) {
        Some(serial) => serial,
        None => unreachable!(),
    }
}

/// A first try's lane and serial.
pub fn first_lane(head: &CardHead, draws: &mut Draws) -> (u16, u32)
    requires { IsCard head.now }
    ensures lane { result.0 ≡ lane_in head.now (stream_from draws.old) }
    ensures serial { result.1 ≡ serial_in (stream_from draws.old) }
    ensures behind { stream_from draws.new ≡ behind next_u32 (behind next_u64 (stream_from draws.old)) }
    ensures from { head.now.from ≤ result.0 }
    ensures to { result.0 ≤ head.now.to }
    ensures least { 1 ≤ result.1 }
{
    let lane = lane_among(head.from, head.to, draws.number());
    (lane, first_serial(draws))
}

// Another lane than the last one, if the card has one.
fn other_lane(head: &CardHead, last: u16, draws: &mut Draws) -> Option<(u16, u32)>
    requires from { head.now.from ≤ last }
    requires to { last ≤ head.now.to }
    ensures value { result ≡ other_in head.now last (stream_from draws.old) }
    ensures behind { stream_from draws.new ≡ behind_other head.now last (stream_from draws.old) }
    ensures lane { IfSome result (λ r. (head.now.from ≤ r.0) × (r.0 ≤ head.now.to)) }
    ensures serial { IfSome result (λ r. 1 ≤ r.1) }
    ensures other { IfSome result (λ r. r.0 ≢ last) }
{
    let lane = next_lane(head.from, head.to, last, Answer::Lost, draws.number());
    if lane == last {
        return None;
    }
    Some((lane, first_serial(draws)))
}

/// The lane and serial of a try behind one on this lane with this serial, whose last answer named a serial or none. On
/// the same lane the serial is above both. None where no serial is left there, and the card has no other lane.
pub fn next_lane_and_serial(
    head: &CardHead,
    last: u16,
    serial: u32,
    named: Option<u32>,
    draws: &mut Draws,
) -> Option<(u16, u32)>
    requires from { head.now.from ≤ last }
    requires to { last ≤ head.now.to }
    ensures value { result ≡ next_in head.now last serial named (stream_from draws.old) }
    ensures behind { stream_from draws.new ≡ behind_next head.now last serial named (stream_from draws.old) }
    ensures lane { IfSome result (λ r. (head.now.from ≤ r.0) × (r.0 ≤ head.now.to)) }
    ensures serial { IfSome result (λ r. 1 ≤ r.1) }
    ensures above { IfSome result (λ r. r.0 ≡ last → known_of serial named < r.1) }
    ensures other { IfSome result (λ r. named ≡ None → head.now.from < head.now.to → r.0 ≢ last) }
{
    let answer = match named {
        Some(named) => Answer::Refused(Refusal::Stale(named)),
        None => Answer::Other,
    };
    let lane = next_lane(head.from, head.to, last, answer, draws.number());
    if lane != last {
        return Some((lane, first_serial(draws)));
    }
    match serial_above(highest_named(serial, answer), draws.short()) {
        Some(next) => Some((lane, next)),
        None => other_lane(head, last, draws),
    }
}
