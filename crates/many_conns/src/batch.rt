//! The frames that a round takes.
ghost use Rattle.std.specs.Prelude.{◌≡◌, ◌+◌, ◌<◌, ◌≤◌, [], true, length, take, option_map, IfOk, IfSome};
ghost use Rattle.many_conns.specs.Batches.{fits, less_if, offered, spent};

use many_words::{Door, Entry};
use std::alloc::{AllocError, Global};
use std::marker::Model;

/// What a frame takes of a round beside one room: whether it is a client's, and whether it takes long.
#[derive(Clone, Copy, Debug, PartialEq, Eq)]
pub struct Weight {
    pub client: bool,
    pub dear: bool,
}

/// What a round still takes: so many frames, so many of clients among them, and so many dear ones.
#[derive(Clone, Copy, Debug, PartialEq, Eq)]
pub struct Budget {
    pub frames: usize,
    pub clients: usize,
    pub dear: usize,
}

/// A batch as it is filled: rooms of entries, how many of them are full, and what it still takes.
#[derive(Drop)]
pub struct Batch {
    rooms: Vec<Entry>,
    full: usize,
    left: Budget,
}

impl Model for Batch {
    ghost use Rattle.std.specs.Prelude.{◌+◌, ◌≤◌, take, length};
    ghost use Rattle.many_conns.specs.Batches.{Batch as State};

    ghost Value = { State };

    ghost view = { λ b. record {
      room = length b.rooms.items;
      entries = take b.full b.rooms.items;
      left = b.left;
    } };

    ghost invariant = { λ b. b.full + b.left.frames ≤ length b.rooms.items };
}

impl Batch {
    /// So many rooms, and nothing in them. This alone takes memory.
    pub fn open(alloc: Global, room: usize) -> Result<Batch, AllocError>
        ensures { IfOk result (λ b. b
            ≡ record { room = room; entries = []; left = record { frames = 0; clients = 0; dear = 0 } }) }
    {
        let mut rooms = Vec::with_capacity(alloc, room)?;
        for _ in 0..room {
            rooms.push(Entry::empty(alloc)?)?;
        }
        Ok(Batch {
            rooms,
            full: 0,
            left: Budget {
                frames: 0,
                clients: 0,
                dear: 0,
            },
        })
    }

    /// Begins anew, with as many frames to take as there are rooms, so many of clients, and so many dear ones.
    pub fn begin(&mut self, clients: usize, dear: usize)
        ensures { self.new ≡ record self.old {
          entries = [];
          left = record { frames = self.old.room; clients = clients; dear = dear };
        } }
    {
        self.full = 0;
        self.left = Budget {
            frames: self.rooms.len(),
            clients,
            dear,
        };
    }

    /// Whether a frame has room.
    pub fn fits(&self, weight: Weight) -> bool
        ensures { result ≡ fits weight self.now.left }
    {
        self.left.frames > 0
            && (!weight.client || self.left.clients > 0)
            && (!weight.dear || self.left.dear > 0)
    }

    /// Takes a frame that has room, with what is noted of it.
    pub fn put(
        &mut self,
        place: usize,
        door: Door,
        frame: &[u8],
        noted: Option<&[u8]>,
        weight: Weight,
    )
        requires frame { length frame.now ≤ 16384 }
        requires noted { IfSome noted (λ bytes. length bytes.now ≤ 16896) }
        requires fits { fits weight self.old.left ≡ true }
        ensures { self.new ≡ offered weight
            (record { place = place; door = door; frame = frame.now; noted = option_map (λ bytes. bytes.now) noted.entry })
            self.old }
    {
        self.rooms[self.full].fill(place, door, frame, noted);
        self.full += 1;
        self.left = spent(self.left, weight);
    }

    /// What it has, in order.
    pub fn entries(&self) -> &[Entry]
        ensures { result.now ≡ self.now.entries }
    {
        &self.rooms[..self.full]
    }
}

fn less_if(less: bool, count: usize) -> usize
    ensures { result ≡ less_if less count }
{
    if less { count.saturating_sub(1) } else { count }
}

// What is left behind a frame.
fn spent(left: Budget, weight: Weight) -> Budget
    ensures { result ≡ spent weight left }
{
    Budget {
        frames: left.frames.saturating_sub(1),
        clients: less_if(weight.client, left.clients),
        dear: less_if(weight.dear, left.dear),
    }
}
