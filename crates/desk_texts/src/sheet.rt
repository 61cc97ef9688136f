//! A card or a pair file.
use crate::day::Day;
use express_words::{List, Text};

/// A card has at most so many addresses.
pub const MOST_ADDRESSES: u32 = 64;

/// The first line of a card.
#[derive(Clone, Copy, Debug, PartialEq, Eq)]
pub struct CardHead {
    /// The bytes of a message: a multiple of 16 from 32 to 4,096.
    pub width: u32,
    /// The first of the lanes that strangers share.
    pub from: u16,
    /// The last of them, at most 255.
    pub to: u16,
    /// How many addresses the card has: 1 to 64.
    pub addresses: u32,
    /// The last day on which letters are to be sent with it; without one it lasts.
    pub until: Option<Day>,
}

/// The first line of a pair file.
#[derive(Clone, Copy, Debug, PartialEq, Eq)]
pub struct PairHead {
    /// The bytes of a message: a multiple of 16 from 32 to 4,096.
    pub width: u32,
    /// The boxes that the servers have room for: 1 to 4,096.
    pub boxes: u32,
    /// The owner's lane, at most 255, none of the strangers'.
    pub lane: u16,
    /// The first of the lanes that strangers share.
    pub from: u16,
    /// The last of them, at most 255.
    pub to: u16,
}

/// What a sheet is.
#[derive(Clone, Copy, Debug, PartialEq, Eq)]
pub enum Head {
    /// A card, by which a stranger leaves letters.
    Card(CardHead),
    /// A pair file, by which an owner opens a desk.
    Pair(PairHead),
}

/// A card or a pair file.
#[derive(Drop)]
pub struct Sheet {
    /// Which it is, and its numbers.
    pub head: Head,
    /// Where the leader is reached, as `host:port`.
    pub leader: Text,
    /// Where the helper is reached.
    pub helper: Text,
    /// The addresses of a card's boxes, all different; none in a pair file.
    pub addresses: List<u128>,
}
