//! What servers and clients do at any state and any bytes: what they draw, what they answer and refuse, that a lane goes
//! on, and that no client is told an audit's point.
//!
//! Each function here is empty: its contract is laws of the tables of `step_rules`.
#![tactic(auto)]

ghost use Rattle.step_laws.specs.Causes.{HelperAnswers, LeaderAnswers};
ghost use Rattle.step_laws.specs.Draws.{ClientsDrawAfresh, ServersDrawAfresh};
ghost use Rattle.step_laws.specs.Lanes.{DepositIsHeld, LaterIsTaken, RequestsGoOn};
ghost use Rattle.step_laws.specs.Points.{HelperTellsNoPoint, LeaderTellsNoPoint};
ghost use Rattle.step_laws.specs.Replies.{AcksAreOwn, TurnsAreOwn};

/// A server's count of draws and a client's serial name the stream that it draws of, and no other count or serial names
/// that stream. A write's sixteen words are slices one behind the other, its roots the first two, and so are a box's keys.
pub fn draws_are_fresh()
    ensures servers { ServersDrawAfresh }
    ensures clients { ClientsDrawAfresh }
{}

/// The leader answers a client's frame by its row's kept answer or by a refusal, each of which has its one cause; it
/// issues a command where there is room, and says nothing where the frame's own request has one outstanding. The helper
/// refuses a command for its cause alone.
pub fn refusals_have_causes()
    ensures leader { LeaderAnswers }
    ensures helper { HelperAnswers }
{}

/// A lane goes on, whatever became of its last request. The submission of a later request has its command issued, or is
/// to come again for want of room, at every row of the leader that isn't busy. A later deposit is held at every row of the
/// helper. A client whose request is told to come again, or that the link is down, still has it.
pub fn lanes_go_on()
    ensures leader { LaterIsTaken }
    ensures helper { DepositIsHeld }
    ensures client { RequestsGoOn }
{}

/// What the leader says to a client, of whatever lane, is the same for any two points of an audit until its row is done,
/// and so is what the helper says.
pub fn points_are_untold()
    ensures leader { LeaderTellsNoPoint }
    ensures helper { HelperTellsNoPoint }
{}

/// A command that the leader issues at a client's frame has the frame's lane and serial, and comes behind those that are
/// outstanding; else the leader stays as it is. What a reply of the helper comes to, an answer for a lane or a settle,
/// has the lane and serial of the oldest outstanding command, which is acknowledged then.
pub fn answers_are_own()
    ensures turns { TurnsAreOwn }
    ensures acks { AcksAreOwn }
{}
