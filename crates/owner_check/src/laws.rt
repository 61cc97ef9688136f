//! What asking leaves as it was.
ghost use Rattle.owner_check.specs.Laws.{KeepsHelper, KeepsLeader, KeepsOtherServer, KeepsWhenAskedItsWidth};

/// A server that is asked stays as it was: a leader and a helper by the leader's question; by that of its
/// width a leader, and by the helper's question a helper, where the lane has had a request.
pub fn asking_changes_nothing()
    ensures leader { KeepsLeader }
    ensures other { KeepsOtherServer }
    ensures width { KeepsWhenAskedItsWidth }
    ensures helper { KeepsHelper }
{}
