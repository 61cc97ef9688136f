//! A card or a pair file.
use desk_texts::Day;
use express_words::{List, Text};
use lane_gate::Ticket;

/// A card has at most so many addresses.
pub const MOST_ADDRESSES: u32 = 64;

/// A card, by which a stranger leaves letters.
#[derive(Drop)]
pub struct Card {
    /// The bytes of a message: a multiple of 16 from 32 to 4,096.
    pub width: u32,
    /// The last day on which letters are to be sent with it; without one it lasts.
    pub until: Option<Day>,
    /// Where the leader is reached, as `host:port`.
    pub leader: Text,
    /// Where the helper is reached.
    pub helper: Text,
    /// The addresses of its boxes, 1 to 64, all different.
    pub addresses: List<u128>,
}

/// A server of a pair, as an owner reaches it.
#[derive(Drop)]
pub struct OwnersServer {
    /// Where it is reached, as `host:port`.
    pub place: Text,
    /// The key of the owner's lane there.
    pub key: Ticket,
}

/// A pair file, by which an owner opens a desk.
#[derive(Drop)]
pub struct Pair {
    /// The bytes of a message: a multiple of 16 from 32 to 4,096.
    pub width: u32,
    /// The boxes that the servers have room for: 1 to 4,096.
    pub boxes: u32,
    /// The owner's lane, at most 255.
    pub lane: u16,
    pub leader: OwnersServer,
    pub helper: OwnersServer,
}

/// A card or a pair file.
#[derive(Drop)]
pub enum Sheet {
    Card(Card),
    Pair(Pair),
}
