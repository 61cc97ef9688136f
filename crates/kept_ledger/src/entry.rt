//! What a ledger has noted.
use desk_texts::Day;
use express_words::{List, Text};

/// Boxes with one name, for one card.
#[derive(Drop)]
pub struct NamedBoxes {
    /// 1 to 32 lower-case letters, digits and `-`.
    pub name: Text,
    /// Their addresses, 1 to 64, which stand at no other name.
    pub addresses: List<u128>,
    /// The last day of their card, if it has one.
    pub until: Option<Day>,
    /// The day on which they were closed, if they are: they are read as before, but their card isn't handed
    /// out any more.
    pub closed: Option<Day>,
    /// Whether they are to be retired, or are.
    pub is_retiring: bool,
}

/// A box that the ledger got.
#[derive(Clone, Copy, Debug, PartialEq, Eq)]
pub struct LedgerBox {
    pub address: u128,
    /// Its number at the servers.
    pub number: u32,
    /// The serial of the request that registered it, of which its keys are drawn.
    pub serial: u32,
    /// Whether it was read for the last time.
    pub is_retired: bool,
}

/// A box that an earlier ledger got.
#[derive(Clone, Copy, Debug, PartialEq, Eq)]
pub struct OwnBox {
    pub number: u32,
    /// The serial of the request that registered it.
    pub serial: u32,
    pub address: u128,
}

/// Why there is no box to come at an address.
#[derive(Clone, Copy, Debug, PartialEq, Eq)]
pub enum Denial {
    /// Another box stands at it.
    Taken,
    /// The servers have no room for a box more.
    Full,
    /// An earlier ledger's box at it was retired.
    Retired,
}

/// An address at which there is no box to come.
#[derive(Clone, Copy, Debug, PartialEq, Eq)]
pub struct Denied {
    pub address: u128,
    pub denial: Denial,
}

/// What a box held.
#[derive(Drop)]
pub struct Reading {
    /// The box's address.
    pub address: u128,
    /// When it was read, in seconds since 1970 UTC.
    pub seconds: u64,
    /// The bytes that stood in it, as many as a box has, not all zeros.
    pub bytes: List<u8>,
}

/// By what a letter is known: the id that its writer drew, and its number of parts.
#[derive(Clone, Copy, Debug, PartialEq, Eq)]
pub struct LetterMark {
    pub id: u64,
    pub parts: u8,
}

/// What was done with a letter.
#[derive(Clone, Copy, Debug, PartialEq, Eq)]
pub enum Handling {
    /// It was shown on the screen.
    Shown,
    /// It was written into a file.
    Written,
}

/// A letter that was shown or written.
#[derive(Clone, Copy, Debug, PartialEq, Eq)]
pub struct Marked {
    pub mark: LetterMark,
    pub handling: Handling,
    /// When, in seconds since 1970 UTC.
    pub seconds: u64,
}
