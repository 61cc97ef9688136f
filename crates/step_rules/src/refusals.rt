//! What a refusal leaves, at any state and any bytes: laws over the steps.
ghost use Rattle.step_rules.specs.Refusals.{HelperRefusesClients, HelperRefusesCommands, LeaderRefusesClients, LeaderRefusesRequests};

/// A client's frame that the helper refuses changes nothing. A command that it carries out and refuses leaves boxes,
/// shares, draws and the other lanes' rows as they were, and what it doesn't carry out changes nothing.
pub fn helper_refusals()
    ensures clients { HelperRefusesClients }
    ensures commands { HelperRefusesCommands }
{}

/// A client's frame that the leader answers by a reply, as by a refusal, changes nothing. A reply of the helper after
/// which a request is refused leaves boxes, shares, draws and the other lanes' rows as they were, and what doesn't fit
/// changes nothing.
pub fn leader_refusals()
    ensures clients { LeaderRefusesClients }
    ensures requests { LeaderRefusesRequests }
{}
