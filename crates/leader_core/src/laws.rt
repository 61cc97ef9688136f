//! What is outstanding in every state that a leader comes to: laws over the steps.
ghost use Rattle.leader_core.specs.Awaited.{ClientsAreTold, ClientsAwait, OpenedAwaits, RepliesAwait};

/// A leader that was opened has just the commands outstanding that its busy rows wait for: none. It stays so at any
/// bytes of a client and of the helper. So a client is told to wait only where its lane's command is outstanding, of
/// that number and of the frame's serial.
pub fn rows_await()
    ensures opened { OpenedAwaits }
    ensures clients { ClientsAwait }
    ensures replies { RepliesAwait }
    ensures told { ClientsAreTold }
{}
