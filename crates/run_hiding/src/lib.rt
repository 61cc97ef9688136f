//! What one of two servers can tell of a whole run: the ideal experiment in which the other server's expansions on the
//! paths of the writes, and its masks of the reads, are any of their form.
//!
//! `specs/Ideal` is the experiment, `specs/Sight` what the server is sent in it, `specs/Moved` the history by which
//! other targets and messages give the same sight, `specs/Laws` and `specs/Flow` what holds. Each function here is
//! empty: its contract is laws of these definitions. `docs/PRIVACY.md` tells what they mean.
#![tactic(auto)]

ghost use Rattle.run_rules.specs.EveryEnd.{AtEveryEnd};
ghost use Rattle.run_hiding.specs.Flow.{ActsStay, FlowStays, ForeignLettersStay, OutcomesStay, OutcomesStayBeside, RunsFitBeside, SchedulesFitOtherAims};
ghost use Rattle.run_hiding.specs.Laws.{DistinctRunsStay, ForeignOrdersStay, ForeignRepliesAreIdeal, IdealsStay, MasksApart, RealIsIdeal, ResultsStay, RunsAreIdeal, RunsFitOtherAims, RunsHaveForm, RunsReturn, SightsStay, WritesAddUp};

/// In every history whose writes go to registered boxes, the frame of each token of a client's lane that is addressed
/// to one server is that of an ideal history, whose choices and masks are the run's own expansions; and so is each
/// letter of a run. No two reads, of clients or of foreign lanes, take one slice of a key's stream for their masks.
pub fn runs_are_ideal()
    ensures form { RunsHaveForm }
    ensures frames { RealIsIdeal }
    ensures letters { RunsAreIdeal }
    ensures masks { AtEveryEnd MasksApart }
{}

/// For either server, any ideal history and any other aims of its writes at registered boxes, the moved history has
/// the form of one and gives that server the same frame for every token, and the opposite move gives the first one
/// back. So as many distinct ideal histories of the one aims as of the other give a sight.
pub fn sights_stay()
    ensures form { IdealsStay }
    ensures sights { SightsStay }
    ensures back { RunsReturn }
    ensures distinct { DistinctRunsStay }
{}

/// What a server is sent in a run it is sent in an ideal history of any other aims. So for two schedules of clients
/// that are alike but for aims, each letter to a server in the one run is spelled, at the same place, of an ideal
/// history of the other run; and so with foreign lanes, where the same bytes come from outside: the reply to a foreign
/// lane's command is of the same ideal history, or a refusal that stands in both runs.
pub fn runs_fit_other_aims()
    ensures fit { RunsFitOtherAims }
    ensures schedules { SchedulesFitOtherAims }
    ensures beside { RunsFitBeside }
{}

/// The helper's reply to a foreign lane's command is a refusal or that of the ideal history, and the leader's orders
/// for foreign lanes depend on no aim. In two schedules alike but for aims, with the same bytes from outside, each such
/// order is the same, and each such reply but for the share that it masks: so a refusal has the same words in both.
pub fn strangers_tell_no_more()
    ensures replies { ForeignRepliesAreIdeal }
    ensures orders { ForeignOrdersStay }
    ensures letters { ForeignLettersStay }
{}

/// Schedules alike but for aims have token runs alike but for aims, under one oracle, and with the same bytes from
/// outside they have one: servers act at foreign frames alike. Other aims at registered boxes change no result but the
/// bytes that are read, and clients of two such schedules are told the same but for messages, foreign lanes beside.
pub fn flow_stays()
    ensures flow { FlowStays }
    ensures results { ResultsStay }
    ensures outcomes { OutcomesStay }
    ensures acts { ActsStay }
    ensures beside { OutcomesStayBeside }
{}

/// Under any choice both servers add up to a write's message at its target, and to nothing elsewhere.
pub fn writes_add_up()
    ensures sum { WritesAddUp }
{}
