//! What a command needs, and what a request's first frames leave, at any state and any bytes: laws over the steps.
ghost use Rattle.step_rules.specs.Firsts.{HelperGoesOn, HelperTakesFirst, LeaderGoesOn};
ghost use Rattle.step_rules.specs.Needs.{HelperNeeds, LeaderNeeds};

/// The helper carries out a command and doesn't refuse it only where the lane's row has its serial and holds what it
/// needs; a read or retire needs a live box and the token of its key for the lane and serial. The leader issues a
/// command only for what a client's frame brought, with a read's or retire's token. At all other bytes of clients the
/// leader stays as it was: a begin and an audit take a draw, and nothing else does, so a point is drawn only with the
/// proof share that the row then has.
pub fn commands_need()
    ensures helper { HelperNeeds }
    ensures leader { LeaderNeeds }
{}

/// The first deposit, submission and proof of a serial stand. A client's frame changes a row of the helper only as a
/// later request's deposit or as the first proof of a write that has begun. A command leaves it with what it held, or
/// done with. So does a reply at the leader, which takes no draw.
pub fn firsts_stand()
    ensures helper { HelperTakesFirst }
    ensures commands { HelperGoesOn }
    ensures leader { LeaderGoesOn }
{}
