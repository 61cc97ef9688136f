//! The lane and the serial of a try, from numbers that are drawn.
ghost use Rattle.std.specs.Prelude.{◌≡◌, ◌≢◌, ◌+◌, ◌<◌, ◌≤◌, ◌^◌, true, false, SomeIff};
ghost use Rattle.desk_tries.specs.Draws.{highest_named, is_stale, lane_among, next_lane, other_lane};

use crate::heard::Answer;
use express_words::Refusal;

/// A lane of a card's range, both ends with it.
pub fn lane_among(from: u16, to: u16, drawn: u64) -> u16
    requires { from ≤ to }
    ensures value { result ≡ lane_among from to drawn }
    ensures least { from ≤ result }
    ensures most { result ≤ to }
{
    let lanes = u64::from(to - from) + 1;
    from + (drawn % lanes) as u16
}

/// The lane of the next try: the same behind `stale`, which named a serial above which the lane can be used, and behind
/// any other answer another one, where the range has one.
pub fn next_lane(from: u16, to: u16, last: u16, answer: Answer, drawn: u64) -> u16
    requires from { from ≤ last }
    requires to { last ≤ to }
    ensures value { result ≡ next_lane from to last answer drawn }
    ensures least { from ≤ result }
    ensures most { result ≤ to }
    ensures stale { is_stale answer ≡ true → result ≡ last }
    ensures other { is_stale answer ≡ false → from < to → result ≢ last }
{
    if is_stale(answer) {
        last
    } else {
        other_lane(from, to, last, drawn)
    }
}

fn is_stale(answer: Answer) -> bool
    ensures { result ≡ is_stale answer }
{
    matches!(answer, Answer::Refused(Refusal::Stale(_)))
}

fn other_lane(from: u16, to: u16, last: u16, drawn: u64) -> u16
    requires from { from ≤ last }
    requires to { last ≤ to }
    ensures value { result ≡ other_lane from to last drawn }
    ensures least { from ≤ result }
    ensures most { result ≤ to }
    ensures other { from < to → result ≢ last }
{
    if from == to {
        return last;
    }
    let lane = lane_among(from, to - 1, drawn);
    if lane < last { lane } else { lane + 1 }
}

/// A serial one to 65,536 above the highest that is known of the lane, 0 at first. None where none is left: the lane
/// can't be used any more.
pub fn serial_above(highest: u32, drawn: u16) -> Option<u32>
    ensures { SomeIff result (highest + 1 + drawn < 2 ^ 32) (highest + 1 + drawn) }
{
    highest.checked_add(1 + u32::from(drawn))
}

/// The highest serial that is known of a lane, after an answer on it: `stale` names one.
pub fn highest_named(highest: u32, answer: Answer) -> u32
    ensures { result ≡ highest_named highest answer }
{
    match answer {
        Answer::Refused(Refusal::Stale(serial)) => highest.max(serial),
        _ => highest,
    }
}
