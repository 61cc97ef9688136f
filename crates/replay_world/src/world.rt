//! The world of a replay.
ghost use Rattle.std.specs.Prelude.{Some};
ghost use Rattle.replay_world.specs.Texts.{fault_text};

use crate::lines::{JournalLine, OutcomeLine};
use crate::state::State;
use crate::texts::text_of;
use express_words::NoMemory;
use express_words::outside::Sink;
use schedule_text::{Event, Header};
use std::alloc::Global;
use std::fmt;

/// Why a text wasn't written.
#[derive(Clone, Copy, Debug, PartialEq, Eq)]
pub enum PutFault {
    Failed,
    NoMemory,
}

impl fmt::Display for PutFault {
    ghost output = { λ fault. Some (fault_text fault) };

    fn fmt<W: fmt::Write>(&self, f: &mut fmt::Formatter<W>) -> fmt::Result {
        match self {
            PutFault::Failed => f.write_str("the sink failed"),
            PutFault::NoMemory => f.write_str("out of memory"),
        }
    }
}

/// The run of a schedule so far. After an event that found no memory it isn't whole, and nothing is said of it.
#[derive(Drop)]
pub struct World {
    header: Header,
    events: Vec<Event>,
    state: State,
}

impl World {
    ghost use Rattle.std.specs.Prelude.{◌≡◌, ◌<◌, ◌≤◌, All, OnOk, IfOk, Err, [], string_bytes};
    ghost use Rattle.express_words.specs.Causes.{Rose};
    ghost use Rattle.express_words.specs.Streams.{Took, TookPrefix};
    ghost use Rattle.run_rules.specs.Run.{happens};
    ghost use Rattle.schedule_text.specs.Rules.{KeepsRulesAfter};
    ghost use Rattle.replay_world.specs.Messages.{HasNoOther};
    ghost use Rattle.replay_world.specs.Parts.{event_in, journal_in, outcomes_in};
    ghost use Rattle.replay_world.specs.Played.{output_of, played, run_of, share_at, stands, with_event, IsWhole};

    /// A world in which nothing has happened.
    pub fn open(alloc: Global, header: &Header) -> Result<World, NoMemory>
        ensures schedule { IfOk result (λ world. played world ≡ record { header = header.now; events = [] }) }
        ensures whole { IfOk result IsWhole }
    {
        Ok(World {
            header: *header,
            events: Vec::new(alloc),
            state: State::open(alloc, header)?,
        })
    }

    /// One more event. The servers, the clients and the pool move by the step of the run that it is.
    pub fn event(&mut self, alloc: Global, event: &Event) -> Result<(), NoMemory>
        requires whole { IsWhole self.old }
        requires rules { KeepsRulesAfter (played self.old).header.settings
            (played self.old).events event.now }
        ensures schedule { OnOk result (played self.new ≡ with_event (played self.old) event.now) }
        ensures moved { OnOk result (stands self.new ≡ happens (stands self.old) (event_in event.now)) }
        ensures whole { OnOk result (IsWhole self.new) }
    {
        self.events.push(event.copied(alloc)?)?;
        self.state.event(alloc, event)
    }

    /// What became of the requests, in the order in which it was told. A line has a message where its outcome is one,
    /// and else none.
    pub fn outcomes(&self) -> &[OutcomeLine]
        requires { IsWhole self.now }
        ensures told { outcomes_in result.now ≡ (run_of (played self.now)).outcomes }
        ensures bare { All (λ line. HasNoOther line.outcome line.message) result.now }
    {
        self.state.outcomes.as_slice()
    }

    /// The commands, in the order in which they were carried out.
    pub fn journal(&self) -> &[JournalLine]
        requires { IsWhole self.now }
        ensures { journal_in result.now ≡ (run_of (played self.now)).journal }
    {
        self.state.journal.as_slice()
    }

    /// A server's share of a box. The leader is server 0. A box that isn't registered there has zeros.
    pub fn share(&self, server: u8, box_number: u32) -> &[u8]
        requires whole { IsWhole self.now }
        requires server { server < 2 }
        requires within { box_number < (played self.now).header.settings.boxes }
        ensures { result.now ≡ share_at (run_of (played self.now)) server box_number }
    {
        if server == 0 {
            self.state.leader.share(box_number)
        } else {
            self.state.helper.share(box_number)
        }
    }

    fn text(&self, alloc: Global) -> Result<String, NoMemory>
        requires { IsWhole self.now }
        ensures { IfOk result (λ text. string_bytes text ≡ output_of (played self.now)) }
    {
        Ok(text_of(alloc, &self.state)?)
    }

    /// Writes the text of the run. Where the sink fails a prefix of it was written; where memory is wanting nothing
    /// was.
    pub fn put<K: Sink>(&self, alloc: Global, out: &mut K) -> Result<(), PutFault>
        requires { IsWhole self.now }
        ensures ok { OnOk result (Took (K.seen out.old).written (K.seen out.new).written (output_of (played self.now))) }
        ensures failed { result ≡ Err PutFault.Failed
            → TookPrefix (K.seen out.old).written (K.seen out.new).written (output_of (played self.now)) }
        ensures memory { result ≡ Err PutFault.NoMemory → out.new ≡ out.old }
        ensures later { (K.seen out.old).faults ≤ (K.seen out.new).faults }
        ensures cause { result ≡ Err PutFault.Failed → Rose (K.seen out.old).faults (K.seen out.new).faults }
        ensures unfailed { OnOk result ((K.seen out.new).faults ≡ (K.seen out.old).faults) }
    {
        match self.text(alloc) {
            Err(_) => Err(PutFault::NoMemory),
            Ok(text) => match out.put(text.as_bytes()) {
                Err(_) => Err(PutFault::Failed),
                Ok(()) => Ok(()),
            },
        }
    }
}
