//! The protocol as a pure machine: what a schedule does to bare tokens, and what holds over every schedule.
//!
//! The definitions stand in `specs/`: `Tokens` has the tokens, rows and state, `Rows` what a token does to one
//! row, `Run` the events. Each function here is empty: its contract is laws of them.
//! They stand on one invariant of all runs, `specs/Invariant`.
#![tactic(auto)]

ghost use Rattle.token_rules.specs.Laws.{
  ActsAreListed,
  ActsDecide,
  Always,
  AreSent,
  BoxesAreAsked,
  CountsGrow,
  FinishIsDriven,
  FinishRests,
  FramesAreHeeded,
  InNumbers,
  InOrder,
  IsPrefix,
  IsReady,
  KeepsReplies,
  LeaderKnows,
  LinkIsOne,
  NoActs,
  Once,
  OperationsAreAsked,
  OutcomesAccount,
  OutcomesAreClients,
  OutcomesAreLast,
  OutcomesNumbered,
  OutcomesStand,
  ReadsFind,
  RowsTell,
  TableIsJournals,
  TablesFollow,
};
ghost use Rattle.token_rules.specs.Since.{EndedOwns, MovesLeadOn, OwnedStays, SinceItself};
ghost use Rattle.token_rules.specs.Worked.{BoxBetween, FullWindow, LostReply, NeverGot, OutOfOrder, RepeatedFrames};
ghost use Rattle.token_rules.specs.Lawful.{DrainsEnd, Lawful, MovesKeep, StartIsLawful};
ghost use Rattle.token_rules.specs.Clients.{ClientsOwn, CommandsInOrder, CommandsOnce, GotIsFew, OpeningsAreSent, OwnBoxesAreFirst, RequestsWereAsked, StepsAreNumbered};

/// What is acknowledged was carried out, what is carried out was issued, and no more is outstanding than the window.
/// The helper keeps its replies to what is carried out and not yet acknowledged.
pub fn numbers_in_order()
    ensures numbers { Always InNumbers }
    ensures replies { Always KeepsReplies }
{}

/// Two tokens of one link number that one server sent to the other are equal.
pub fn link_is_one()
    ensures link { Always LinkIsOne }
{}

/// A lane's row at the leader waits or audits exactly where one command of that lane and serial is outstanding.
pub fn rows_tell()
    ensures rows { Always RowsTell }
{}

/// The journal is the commands in the order of their numbers. It has no line of a client twice.
/// A client's serials never fall along it, and a write's lines are begin, audit and settle in this order.
pub fn journal_in_order()
    ensures prefix { Always IsPrefix }
    ensures order { Always InOrder }
    ensures once { Always Once }
{}

/// Each outcome of a request that was sent has its lines in the journal, a write three, any other request one,
/// and comes after the last of them.
/// A client's outcomes are numbered in the order of its requests: each request in turn was refused as a read of a
/// box that the client never got, or answered under the next serial.
pub fn outcomes_stand()
    ensures journal { Always OutcomesStand }
    ensures last { Always OutcomesAreLast }
    ensures clients { Always OutcomesAreClients }
    ensures numbers { Always OutcomesNumbered }
    ensures account { OutcomesAccount }
{}

/// A `finish` leaves its client with no current request and none that waits, and each request that it was asked
/// has its outcome. A drain, also one within a `finish`, leaves no command outstanding.
/// For this the helper's replies to foreign commands that come in it have to fit at the leader.
pub fn finish_rests()
    ensures rests { FinishRests }
    ensures drains { DrainsEnd }
{}

/// What honest clients never meet: a command of theirs never finds its row at the helper not ready, and while a
/// request is its client's current one no frame of it finds its row ahead of it or out of phase.
pub fn frames_are_heeded()
    ensures commands { Always IsReady }
    ensures frames { Always FramesAreHeeded }
{}

/// Each command opens or continues a request that its client sent, and each entry of the journal did at the boxes
/// what that request asked. The run's table is the journal's, entry by entry.
/// Each box of a client was registered by its request, and while no command of it is outstanding the leader has
/// all that it got. Its read finds no box only where that box was retired before.
pub fn journal_records()
    ensures sent { Always AreSent }
    ensures operations { Always OperationsAreAsked }
    ensures table { Always TableIsJournals }
    ensures follow { Always TablesFollow }
    ensures boxes { Always BoxesAreAsked }
    ensures leader { Always LeaderKnows }
    ensures reads { Always ReadsFind }
{}

/// A `finish` is made of a few moves alone, so any machine with such moves can be driven as the token run is.
pub fn run_is_driven()
    ensures finish { FinishIsDriven }
{}

/// A run is decided by the acts that were taken on its foreign tokens, and takes none where no lane is foreign.
/// Acts and misfits are never taken back.
pub fn acts_decide()
    ensures acts { ActsDecide }
    ensures listed { ActsAreListed }
    ensures none { NoActs }
    ensures counts { CountsGrow }
{}

/// No command of a client is issued twice, and they are issued in the order of their serials.
pub fn commands_in_order()
    ensures once { Always CommandsOnce }
    ensures order { Always CommandsInOrder }
{}

/// A lane's opening command is that of the last request that its client sent, which is that of its serial.
/// A client's own boxes are those that its lane registered with the serials that it has the answers to: all that
/// its lane got, but for the box of a register that is its current request.
pub fn clients_own()
    ensures openings { Always OpeningsAreSent }
    ensures numbered { Always StepsAreNumbered }
    ensures first { Always OwnBoxesAreFirst }
    ensures own { Always ClientsOwn }
    ensures few { Always GotIsFew }
{}

/// All that is known of every world inside a run, also in the middle of a `finish`: the start has it and every
/// move keeps it, whatever foreign lanes do.
pub fn run_is_lawful()
    ensures start { StartIsLawful }
    ensures moves { MovesKeep Lawful }
    ensures always { Always Lawful }
{}

/// Requests that wait or were sent were asked by the schedule.
pub fn requests_were_asked()
    ensures { RequestsWereAsked }
{}

/// What a later world keeps of an earlier one: a client's own boxes are those that the journal gives for its
/// answers, also the journal of the whole run. One that ends a request has all that its lane got.
pub fn owned_stays()
    ensures itself { SinceItself }
    ensures moves { MovesLeadOn }
    ensures owned { OwnedStays }
    ensures ended { EndedOwns }
{}

/// What the run makes of a few schedules, by computation.
pub fn worked_schedules()
    ensures repeated { RepeatedFrames }
    ensures order { OutOfOrder }
    ensures between { BoxBetween }
    ensures lost { LostReply }
    ensures full { FullWindow }
    ensures never { NeverGot }
{}
