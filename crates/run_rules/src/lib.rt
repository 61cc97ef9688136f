//! The run of a schedule over bytes, and how it is the token run with content.
//!
//! `specs/Run` is the run over bytes, `specs/Book` to `specs/Frames` the content that follows from the history of a
//! whole run, `specs/Follows` the relation between the two runs, and `specs/Plain` the plain table of a history.
//! Each function here is empty: its contract is laws of them.
#![tactic(auto)]

ghost use Rattle.run_rules.specs.Acts.{StrangersFollow};
ghost use Rattle.run_rules.specs.Came.{CommandsWereBrought};
ghost use Rattle.run_rules.specs.EveryEnd.{AtEveryEnd, FinishAlwaysEnds, FinishAnswers, FinishDrains, HistoryIsSo, RepliesFit};
ghost use Rattle.run_rules.specs.Follows.{Follows};
ghost use Rattle.run_rules.specs.Heeded.{CurrentIsHeeded};
ghost use Rattle.run_rules.specs.History.{AtEnd};
ghost use Rattle.run_rules.specs.HistoryRuns.{HistoryIsRuns, RunsAreOne};
ghost use Rattle.run_rules.specs.Plain.{BoxesArePlain, ClientsAreReady, HistoryIsClients, JournalInOrder, JournalIsPlain, JournalIsTold, OutcomesArePlain, RegisteredAreAccepted, ResultsArePlain, SharesAreFolds, SharesArePlain};
ghost use Rattle.run_rules.specs.Soundness.{BadWritesAreCaught, SettledAsTheyPass};

/// At the end of every schedule of clients, whatever frames are lost, repeated or reordered, the run over bytes is the
/// token run with the content that follows from its history: each frame is that of its token, and each actor holds
/// what the history gives. The history is one of clients alone: each entry of the journal answers a request.
/// With bytes from outside the two runs agree as well: what these bring belongs to the history, and what servers do at
/// them to the token run's oracle.
pub fn runs_agree()
    ensures follows { AtEnd Follows }
    ensures clients { AtEnd HistoryIsClients }
    ensures strangers { StrangersFollow }
{}

/// The history is that of the two runs, with and without bytes from outside: it has the requests that the token run
/// sent for each client under their serials, the commands that it issued, and the entries that it carried out. The run
/// over bytes that a history is read off is the one that is printed.
pub fn history_is_theirs()
    ensures clients { AtEnd HistoryIsRuns }
    ensures strangers { AtEveryEnd HistoryIsRuns }
    ensures runs { RunsAreOne }
{}

/// Each outcome is what the plain table of mailboxes gives at the place of its request's last entry in the journal, and
/// each line of the journal is printed with the plain table's result. The servers' boxes are the folds of what each
/// was sent: the helper's after the whole journal, the leader's after the entries that it has acknowledged. They add up
/// to the plain table, and a registered write is accepted. No line of the journal stands twice, and a client's stand in
/// the order of its requests.
pub fn schedules_are_plain()
    ensures outcomes { AtEnd OutcomesArePlain }
    ensures journal { AtEnd JournalIsPlain }
    ensures shares { AtEnd SharesAreFolds }
    ensures boxes { AtEnd BoxesArePlain }
    ensures order { AtEnd JournalInOrder }
{}

/// At the end of every schedule, whatever bytes come from outside and whatever frames are lost, repeated or
/// reordered: each outcome of a client is what the plain table gives at its place in the journal, where the
/// plain table has the accepted writes of foreign lanes too, as what both servers add to each box. Each line
/// is printed with the plain table's result, or is that of a foreign command which was refused and did
/// nothing. A client's line is refused for what the plain table has alone: no deposit or proof of it is missing.
/// A client's lines stand once and in order. The servers' boxes are the folds of what each was sent
/// by clients and foreign lanes, and add up to the plain table.
pub fn strangers_are_counted()
    ensures history { AtEveryEnd HistoryIsSo }
    ensures outcomes { AtEveryEnd OutcomesArePlain }
    ensures journal { AtEveryEnd JournalIsTold }
    ensures ready { AtEveryEnd ClientsAreReady }
    ensures order { AtEveryEnd JournalInOrder }
    ensures shares { AtEveryEnd SharesAreFolds }
    ensures boxes { AtEveryEnd BoxesArePlain }
{}

/// A foreign command that did something was brought what it needs, at both servers: of its lane and serial the leader
/// took the submission and the helper the deposit, for an audit or settle both took a proof too, and for a read or
/// retire both took the token of the box's key.
pub fn foreign_commands_are_brought()
    ensures { CommandsWereBrought }
{}

/// So too: each line of a settle, a client's or a foreign lane's, is printed as accepted exactly where the
/// write's proof passes at its point for its own difference vector and proof words. A foreign lane's write that
/// changes two boxes of the plain table or more has two places or more in its vector that aren't zero; it
/// passes at its point, and one of its challenges is the one bad value, or its proof passes at five points at
/// most.
pub fn accepted_writes_pass()
    ensures passes { AtEveryEnd SettledAsTheyPass }
    ensures caught { AtEveryEnd BadWritesAreCaught }
{}

/// In every history both servers' shares add up to the plain table, box by box, after each entry; each
/// entry's result is the plain table's, a read the sum of both servers' shares; and a client's write whose
/// target stood among the boxes when it began is accepted.
pub fn shares_are_plain()
    ensures boxes { SharesArePlain }
    ensures results { ResultsArePlain }
    ensures accepted { RegisteredAreAccepted }
{}

/// At the end of every schedule, whatever bytes come from outside: each reply of the helper to a foreign command fitted
/// at the leader. A frame of a client's current request, whenever it comes, is one that the helper says it holds, and
/// the leader doesn't answer that it is stale or out of phase, nor, but where the window is full, that the client is to
/// come again.
pub fn current_frames_are_heeded()
    ensures heeded { AtEveryEnd CurrentIsHeeded }
    ensures fit { AtEveryEnd RepliesFit }
{}

/// After a `finish` its client has no current request and none that waits, and each request that it was asked
/// has its outcome: in every schedule, whatever was lost before and whatever bytes come from outside, for a
/// client of a lane that isn't foreign. These outcomes stand whatever comes after. Where the client had a request no
/// command is outstanding then: each drain in the `finish` ends with none.
pub fn finish_answers()
    ensures always { FinishAlwaysEnds }
    ensures drains { FinishDrains }
    ensures answers { FinishAnswers }
{}
