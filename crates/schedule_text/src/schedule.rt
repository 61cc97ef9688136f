//! A schedule: what clients are asked, and what then happens to frames.
ghost use Rattle.std.specs.Prelude.{◌≡◌, IfOk};

use express_words::{List, NoMemory, Settings};
use std::alloc::Global;

/// A schedule has at most so many events.
pub const MOST_EVENTS: usize = 20_000;

/// The settings of all, and the seed from which servers and clients draw.
#[derive(Clone, Copy, Debug, PartialEq, Eq)]
pub struct Header {
    pub settings: Settings,
    pub seed: [u8; 32],
}

/// What a client is asked.
#[derive(Drop)]
pub enum Asked {
    /// To register an address.
    Register(u128),
    /// To write a message, as long as the settings' width, to an address.
    Write(u128, List<u8>),
    /// To read one of its own boxes, counted from 0 as it got them.
    Read(u32),
    /// To read one of its own boxes for the last time.
    Retire(u32),
}

impl Asked {
    /// The same again.
    pub fn copied(&self, alloc: Global) -> Result<Asked, NoMemory>
        ensures { IfOk result (λ asked. asked ≡ self.now) }
    {
        match self {
            Asked::Register(address) => Ok(Asked::Register(*address)),
            Asked::Write(target, message) => {
                let message = Vec::from_slice(alloc, message.as_slice())?;
                Ok(Asked::Write(*target, List::from_vec(message)))
            }
            Asked::Read(own) => Ok(Asked::Read(*own)),
            Asked::Retire(own) => Ok(Asked::Retire(*own)),
        }
    }
}

/// One step of a run.
#[derive(Drop)]
pub enum Event {
    /// A client is asked; the request waits behind its others.
    Ask(u16, Asked),
    /// A client's present frame goes into the pool.
    Send(u16),
    /// A copy of the leader's oldest outstanding command goes into the pool.
    Tick,
    /// The frame of this number in the pool is delivered.
    Deliver(u32),
    /// The frame of this number in the pool is noted for the output.
    Show(u32),
    /// All requests of a client are worked off.
    Finish(u16),
    /// Bytes go into the pool as from clients, for the leader (0) or the helper (1).
    Inject(u8, List<u8>),
}

impl Event {
    /// The same again.
    pub fn copied(&self, alloc: Global) -> Result<Event, NoMemory>
        ensures { IfOk result (λ event. event ≡ self.now) }
    {
        match self {
            Event::Ask(client, asked) => {
                let asked = asked.copied(alloc)?;
                Ok(Event::Ask(*client, asked))
            }
            Event::Send(client) => Ok(Event::Send(*client)),
            Event::Tick => Ok(Event::Tick),
            Event::Deliver(number) => Ok(Event::Deliver(*number)),
            Event::Show(number) => Ok(Event::Show(*number)),
            Event::Finish(client) => Ok(Event::Finish(*client)),
            Event::Inject(server, bytes) => {
                let bytes = Vec::from_slice(alloc, bytes.as_slice())?;
                Ok(Event::Inject(*server, List::from_vec(bytes)))
            }
        }
    }
}

/// A schedule as it was read: what the run is opened with, and its events in order.
#[derive(Drop)]
pub struct Schedule {
    pub header: Header,
    /// At most `MOST_EVENTS`.
    pub events: List<Event>,
}
