//! What holds of every schedule, whatever bytes come from outside. Each function here does nothing: its contract is laws.
ghost use Rattle.run_rules.specs.Follows.{Follows};
ghost use Rattle.run_rules.specs.EveryEnd.{HistoryIsSo, RepliesFit};
ghost use Rattle.run_rules.specs.Heeded.{CurrentIsHeeded};
ghost use Rattle.run_rules.specs.HistoryRuns.{HistoryIsRuns};
ghost use Rattle.run_rules.specs.Plain.{BoxesArePlain, ClientsAreReady, JournalInOrder, JournalIsTold, OutcomesArePlain, SharesAreFolds};
ghost use Rattle.run_rules.specs.Soundness.{BadWritesAreCaught, SettledAsTheyPass};
ghost use Rattle.replay_world.specs.Strangers.{BusyRowsAwait, ClientsAreAlone, FinishesAnswer, FinishesDrain, HistoryIsOfRun, OfEverySchedule, RequestsAreTold, SchedulesFit, StrangersAreForeign, StrangersWereBrought};
ghost use Rattle.replay_world.specs.Mills.{MillsCount};
ghost use Rattle.replay_world.specs.Protocol.{FollowsProtocol};
ghost use Rattle.replay_world.specs.Replies.{RepliesAreOne};
ghost use Rattle.replay_world.specs.Sight.{ClientsGetAnswers};

use leader_core::rows_await;

/// The history that the other laws speak of is the run's. It has the requests that the token run sent for each client
/// under their serials, the commands that it issued and the entries that it carried out. Each entry of a client did what
/// its request asked. What a history is read off is the run over bytes, which is printed, and the token run.
pub fn histories_hold()
    ensures runs { OfEverySchedule HistoryIsRuns }
    ensures entries { OfEverySchedule HistoryIsSo }
    ensures printed { HistoryIsOfRun }
{}

/// A schedule that keeps the rules has its foreign lanes apart from its clients' lanes: they are the lanes
/// that bytes from outside name in a frame of a client. Where no bytes come from outside no lane is foreign, so
/// what is said of the lanes that aren't holds of each.
pub fn schedules_fit()
    ensures lanes { StrangersAreForeign }
    ensures alone { ClientsAreAlone }
    ensures fit { SchedulesFit }
{}

/// Whatever frames of a schedule are lost, repeated or reordered, and whatever bytes come from outside: its run
/// over bytes is the protocol's machine with content. Each outcome of a client tells what the plain table of mailboxes gives at the place of its
/// request's last entry in the journal, where the plain table has accepted writes of foreign lanes as what
/// both servers add to each box; so a message that an owner decodes is the one that stands in the plain table
/// there. A finished request that was sent has all its lines, and only refusals come that the plain table has
/// cause for. Each line of the journal is printed with the plain table's result, or is that of a foreign command
/// that was refused and did nothing; a client's stand once, in its order, and are refused for what the plain
/// table has alone. The helper's boxes are the fold of its shares over the whole journal, the leader's that over the entries that
/// it has acknowledged; they add up to the plain table, and a client's write whose target stood among the
/// boxes when it began is accepted.
pub fn schedules_hold()
    ensures follows { OfEverySchedule Follows }
    ensures outcomes { OfEverySchedule OutcomesArePlain }
    ensures journal { OfEverySchedule JournalIsTold }
    ensures ready { OfEverySchedule ClientsAreReady }
    ensures order { OfEverySchedule JournalInOrder }
    ensures shares { OfEverySchedule SharesAreFolds }
    ensures boxes { OfEverySchedule BoxesArePlain }
{}

/// Whatever frames of a schedule are lost, repeated or reordered, and whatever bytes come from outside: its run over
/// bytes is the protocol's machine with content, in five facts. Commands and kept replies are numbered as in the token
/// run, the boxes are the folds of both servers' shares, each frame of the pool is that of its token, the busy rows are
/// those that wait for an outstanding command, and without content all rows are those of the token run.
pub fn runs_follow_protocol()
    ensures { OfEverySchedule FollowsProtocol }
{
    rows_await();
}

/// Each reply of the helper to a foreign command fitted at the leader. A frame of a client's current request, whenever it
/// comes, is one that the helper says it holds, and the leader doesn't answer that it is stale or out of phase, nor, but
/// where the window is full, that the client is to come again.
pub fn frames_are_heeded()
    ensures heeded { OfEverySchedule CurrentIsHeeded }
    ensures fit { OfEverySchedule RepliesFit }
{}

/// Before each event of a schedule and at its end, a row of the leader waits or audits exactly where one command of its
/// lane and serial is outstanding, whatever lane it is.
pub fn rows_are_awaited()
    ensures { BusyRowsAwait }
{
    rows_await();
}

/// Every frame that is addressed to a client is one of the six answers to a client: none with an audit's point, an
/// opening or a proof share goes to its lane, whatever bytes come from outside.
pub fn clients_get_answers()
    ensures { ClientsGetAnswers }
{}

/// The helper stands where the frames that it heard led it, step by step, so each of its replies is its step's at the
/// rows and boxes that the command met. There is one reply to each command that it carried out, under the command's
/// number and as the journal's line tells it. Whenever a reply goes to the leader it is that one, byte for byte, also of
/// a foreign command that was refused.
pub fn replies_are_one()
    ensures { RepliesAreOne }
{}

/// A foreign command that did something was brought what it needs, by frames of its lane and serial: the leader took
/// the submission and the helper the deposit, for an audit or settle both took a proof too, and for a read or retire
/// both took the token of the box's key.
pub fn strangers_were_brought()
    ensures { StrangersWereBrought }
{}

/// Each line of a settle, a client's or a foreign lane's, is printed as accepted exactly where the write's
/// proof passes at its point for its own difference vector and proof words. A foreign lane's write that
/// changes two boxes of the plain table or more has two places or more in its vector that aren't zero; it
/// passes at its point, and one of its challenges is the one bad value, or its proof passes at five points at
/// most.
pub fn accepted_writes_pass()
    ensures passes { OfEverySchedule SettledAsTheyPass }
    ensures caught { OfEverySchedule BadWritesAreCaught }
{}

/// Each client's requests are told in the order in which it was asked. Each request that a client was asked before a
/// `finish` of it has its outcome, whatever comes after. Where the client had a request, the `finish` leaves no command
/// outstanding.
pub fn requests_are_told()
    ensures told { RequestsAreTold }
    ensures finished { FinishesAnswer }
    ensures drained { FinishesDrain }
{}

/// The run of a mill of every number up to 5,000: 64 boxes are registered, so many writes are accepted, 64 messages are
/// told, and the journal has 128 lines and three more for each write.
pub fn mills_count()
    ensures { MillsCount }
{}
