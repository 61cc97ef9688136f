//! Which lanes clients have used so far, and which are foreign.
ghost use Rattle.std.specs.Prelude.{◌≡◌, ℕ, ◌<◌, ◌||◌, ◌++◌, ◌∷◌, [], List as Listed, length, false};
ghost use Rattle.std.specs.Prelude.{slice_index_or};
ghost use Rattle.schedule_text.specs.Lanes.{lane_in, client_of, foreign_by, is_lane};
ghost use Rattle.schedule_text.specs.Grammar.{is_apart, may_follow};

use crate::schedule::Event;
use express_words::limits::MOST_LANES;
use wire_frames::{is_from_client, whole};

// A client's lane is below this.
const LANES: usize = MOST_LANES as usize;

/// A mark for each lane that a client may have.
#[derive(Drop)]
pub struct Lanes {
    pub used: [bool; LANES],
    pub foreign: [bool; LANES],
}

// The lane of the one frame of a client that the bytes exactly are.
#[tactic(auto, unfolding(crate::specs::Lanes::lane_in))]
fn lane_in(bytes: &[u8]) -> Option<u16>
    ensures { result ≡ lane_in bytes.now }
{
    match whole(bytes) {
        Ok(frame) => {
            if is_from_client(&frame.body) {
                Some(frame.lane)
            } else {
                None
            }
        }
        Err(_) => None,
    }
}

// The client that a line is of.
fn client_of(event: &Event) -> Option<u16>
    ensures { result ≡ client_of event.now }
{
    match event {
        Event::Ask(client, _) => Some(*client),
        Event::Send(client) => Some(*client),
        Event::Finish(client) => Some(*client),
        Event::Tick => None,
        Event::Deliver(_) => None,
        Event::Show(_) => None,
        Event::Inject(_, _) => None,
    }
}

// The lane that an event makes foreign.
fn foreign_by(event: &Event) -> Option<u16>
    ensures { result ≡ foreign_by event.now }
{
    match event {
        Event::Inject(_, bytes) => lane_in(bytes.as_slice()),
        Event::Ask(_, _) => None,
        Event::Send(_) => None,
        Event::Finish(_) => None,
        Event::Tick => None,
        Event::Deliver(_) => None,
        Event::Show(_) => None,
    }
}

// Whether the lane, if there is one, isn't marked.
fn is_apart(marks: &[bool], lane: Option<u16>) -> bool
    ensures { result ≡ is_apart (λ k. slice_index_or marks.now k false) lane }
{
    match lane {
        None => true,
        Some(lane) => {
            let lane = usize::from(lane);
            lane >= marks.len() || !marks[lane]
        }
    }
}

// Marks the lane, if there is one.
fn mark(marks: &mut [bool], lane: Option<u16>)
    ensures { (k : ℕ) → k < length marks.old
        → slice_index_or marks.new k false ≡ (is_lane k lane || slice_index_or marks.old k false) }
{
    if let Some(lane) = lane {
        let lane = usize::from(lane);
        if lane < marks.len() {
            marks[lane] = true;
        }
    }
}

impl Lanes {
    ghost use Rattle.schedule_text.specs.Tables.{IsTableOf, IsBelow};
    ghost use Rattle.schedule_text.specs.declared.schedule.Event.{Event as Happening};

    /// No lane is used, and none is foreign.
    pub fn new() -> Lanes
        ensures { IsTableOf result [] }
    {
        Lanes {
            used: [false; LANES],
            foreign: [false; LANES],
        }
    }

    /// Whether the event may stand behind those that were noted.
    #[tactic(auto, unfolding(crate::specs::Grammar::may_follow))]
    pub fn allow(&self, event: &Event) -> bool
        requires { IsBelow 256 (client_of event.now) }
        ensures { (es : Listed Happening) → IsTableOf self.now es → result ≡ may_follow es event.now }
    {
        is_apart(&self.foreign, client_of(event)) && is_apart(&self.used, foreign_by(event))
    }

    /// Notes an event.
    pub fn note(&mut self, event: &Event)
        requires { IsBelow 256 (client_of event.now) }
        ensures { (es : Listed Happening) → IsTableOf self.old es
            → IsTableOf self.new (es ++ event.now ∷ []) }
    {
        mark(&mut self.used, client_of(event));
        mark(&mut self.foreign, foreign_by(event));
    }
}
