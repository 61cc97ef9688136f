//! What is noted of a desk.
ghost use Rattle.std.specs.Prelude.{◌≡◌};
ghost use Rattle.desk_entries.specs.Letters.{is_telling};

use desk_texts::Day;
use express_words::{List, Text};

/// Boxes with one name, for one card.
#[derive(Drop)]
pub struct NamedBoxes {
    /// 1 to 32 lower-case letters, digits and `-`.
    pub name: Text,
    /// The addresses that were drawn for them, 1 to 64.
    pub addresses: List<u128>,
    /// The last day of their card, if it has one.
    pub until: Option<Day>,
}

/// A box that stands at an address.
#[derive(Clone, Copy, Debug, PartialEq, Eq)]
pub struct BoxAt {
    /// The serial of the request that registered it, by which the box is known.
    pub serial: u32,
    pub address: u128,
}

/// Why an address gets no box.
#[derive(Clone, Copy, Debug, PartialEq, Eq)]
pub enum Denial {
    /// Another box stands at it.
    Taken,
    /// The servers have no room for a box more.
    Full,
}

/// An address that gets no box.
#[derive(Clone, Copy, Debug, PartialEq, Eq)]
pub struct Denied {
    /// The serial of the request that was refused.
    pub serial: u32,
    pub address: u128,
    pub denial: Denial,
}

/// What a box held.
#[derive(Drop)]
pub enum Held {
    Nothing,
    /// One letter: the id that its writer drew, and its text.
    Letter { id: u64, text: List<u8> },
    /// Letters that met: nothing of them can be read.
    Met,
}

/// A box that was read.
#[derive(Drop)]
pub struct Reading {
    /// The serial of the request that read it.
    pub serial: u32,
    /// The serial of the request that registered the box.
    pub registered: u32,
    /// Whether the box was read for the last time, and is retired.
    pub last: bool,
    /// When it was read, in seconds since 1970 UTC.
    pub seconds: u64,
    pub held: Held,
}

/// Boxes that are closed: they are read as before, but their card isn't handed out any more.
#[derive(Drop)]
pub struct ClosedName {
    pub name: Text,
    /// The day on which they were closed.
    pub day: Day,
}

/// What is noted of a desk, one record each.
#[derive(Drop)]
pub enum Entry {
    /// The desk was opened by the pair file with this text.
    Pair(List<u8>),
    /// Boxes with this name are wanted.
    Named(NamedBoxes),
    /// A box was registered.
    Registered(BoxAt),
    /// The servers refused a box.
    Refused(Denied),
    /// A box was read.
    Read(Reading),
    /// The boxes with this name are to be retired.
    Retiring(Text),
    /// So many of the letters were shown.
    Shown(u32),
    /// So many of the letters were written into files.
    Written(u32),
    /// The boxes with this name are closed.
    Closed(ClosedName),
}

impl Reading {
    /// Whether there is something to note of it: the box held something, or is retired.
    pub fn is_telling(&self) -> bool
        ensures { result ≡ is_telling self.now }
    {
        self.last || !matches!(self.held, Held::Nothing)
    }
}
