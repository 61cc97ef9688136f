//! A table of lanes.
ghost use Rattle.std.specs.Prelude.{◌≡◌, ◌<◌, ◌≤◌, ◌↔◌, IfErr, IfOk, IsErr, length};
ghost use Rattle.lane_table.specs.Table.{idle_table, lane_at, table_of, with_reply, with_row};

use crate::row::Row;
use crate::slot::Slot;
use block_region::BlockArray;
use express_words::NoMemory;
use std::alloc::Global;
use std::marker::Model;

/// A row and a kept reply for each lane, named by numbers from 0. All of its memory is taken when it is opened.
#[derive(Drop)]
pub struct Lanes {
    slots: Vec<Slot>,
    replies: BlockArray,
}

impl Model for Lanes {
    ghost use Rattle.lane_table.specs.Table.{Table, table_of};
    ghost use Rattle.lane_table.specs.Slots.{AreKept, lanes_in};

    ghost Value = { Table };

    ghost view = { λ t. table_of t.replies.size (lanes_in t.slots.items t.replies.blocks) };

    ghost invariant = { λ t. AreKept t.slots.items t.replies };
}

impl Lanes {
    /// A table of this many lanes, with room for a reply of `kept` bytes at each. No frame of any has come.
    pub fn open(alloc: Global, lanes: u16, kept: u32) -> Result<Lanes, NoMemory>
        ensures { IfOk result (λ table. table ≡ idle_table lanes kept) }
    {
        let replies = BlockArray::open(alloc, kept, u32::from(lanes))?;
        match vec![in alloc; Slot::IDLE; usize::from(lanes)] {
            Ok(slots) => Ok(Lanes { slots, replies }),
            Err(_) => Err(NoMemory),
        }
    }

    /// The lane's row, or the number of lanes exactly where the lane isn't below it.
    pub fn get(&self, lane: u16) -> Result<Row, u16>
        ensures row { IfOk result (λ row. row ≡ (lane_at self.now.lanes lane).row) }
        ensures refused { IsErr result ↔ (length self.now.lanes ≤ lane) }
        ensures limit { IfErr result (λ limit. limit ≡ length self.now.lanes) }
    {
        match self.slots.get(usize::from(lane)) {
            Some(slot) => Ok(slot.row),
            None => Err(self.slots.len() as u16),
        }
    }

    /// Sets the lane's row. Its kept reply and all other lanes stay.
    pub fn set(&mut self, lane: u16, row: Row)
        requires { lane < length self.old.lanes }
        ensures { self.new ≡ table_of self.old.room (with_row self.old.lanes lane row) }
    {
        self.slots[usize::from(lane)].row = row;
    }

    /// Keeps the reply for the lane in place of the one before. Its row and all other lanes stay.
    pub fn keep(&mut self, lane: u16, reply: &[u8])
        requires lane { lane < length self.old.lanes }
        requires room { length reply.now ≤ self.old.room }
        ensures { self.new ≡ table_of self.old.room (with_reply self.old.lanes lane reply.now) }
    {
        let place = usize::from(lane);
        self.slots[place].length = reply.len();
        self.replies.write(place, reply);
    }

    /// The reply that is kept for the lane, empty where none was.
    pub fn kept(&self, lane: u16) -> &[u8]
        requires { lane < length self.now.lanes }
        ensures reply { result.now ≡ (lane_at self.now.lanes lane).reply }
        ensures room { length result.now ≤ self.now.room }
    {
        let place = usize::from(lane);
        &self.replies.get(place)[..self.slots[place].length]
    }
}
