//! The last few of a sequence of numbered frames.
ghost use Rattle.std.specs.Prelude.{◌≡◌, ◌+◌, ◌<◌, ◌≤◌, ◌^◌, ◌↔◌, IfOk, IsTrue, Some, [], length, slice_get};
ghost use Rattle.std.specs.Prelude.{slice_index};
ghost use Rattle.link_order.specs.Ring.{with_pushed, with_popped};

use block_region::BlockArray;
use circular_buffer::HeapCircularBuffer;
use express_words::NoMemory;
use std::alloc::Global;
use std::marker::Model;

/// Frames are numbered from 1. Each stands in the block of its number modulo the window.
#[derive(Drop)]
pub(crate) struct FrameRing {
    pushed: u64,
    window: u64,
    lengths: HeapCircularBuffer<usize>,
    blocks: BlockArray,
}

impl Model for FrameRing {
    ghost use Rattle.std.specs.Prelude.{◌≡◌, ◌+◌, ◌-◌, ◌<◌, ◌≤◌, ◌^◌, length, All};
    ghost use Rattle.link_order.specs.Ring.{Held, frames_from};

    ghost Value = { Held };

    ghost view = { λ r. record {
      pushed = r.pushed;
      window = r.window;
      size = r.blocks.size;
      frames = frames_from r.blocks.blocks r.window (r.pushed + 1 - length r.lengths.items) r.lengths.items;
    } };

    ghost invariant = { λ r. (1 ≤ r.window) × (r.lengths.capacity ≡ r.window)
        × (length r.blocks.blocks ≡ r.window) × (length r.lengths.items ≤ r.window)
        × (length r.lengths.items ≤ r.pushed) × All (λ n. n ≤ r.blocks.size) r.lengths.items };
}

impl FrameRing {
    /// No frame yet; room for `window` of at most `size` bytes each. NoMemory where none can be had.
    pub fn open(alloc: Global, window: u8, size: u32) -> Result<FrameRing, NoMemory>
        requires { 1 ≤ window }
        ensures { IfOk result (λ r. r ≡ record { pushed = 0; window = window; size = size; frames = [] }) }
    {
        let blocks = BlockArray::open(alloc, size, u32::from(window))?;
        match HeapCircularBuffer::with_capacity(alloc, usize::from(window)) {
            Ok(lengths) => Ok(FrameRing {
                pushed: 0,
                window: u64::from(window),
                lengths,
                blocks,
            }),
            Err(_) => Err(NoMemory),
        }
    }

    /// How many frames were ever pushed: the number of the last one.
    pub fn pushed(&self) -> u64
        ensures { result ≡ self.now.pushed }
    {
        self.pushed
    }

    /// How many frames are held.
    pub fn len(&self) -> usize
        ensures len { result ≡ length self.now.frames }
        ensures pushed { result ≤ self.now.pushed }
        ensures window { result ≤ self.now.window }
    {
        self.lengths.len()
    }

    /// Whether as many are held as the window has.
    pub fn is_full(&self) -> bool
        ensures full { IsTrue result ↔ (length self.now.frames ≡ self.now.window) }
        ensures within { (1 ≤ self.now.window) × (length self.now.frames ≤ self.now.window) }
    {
        self.lengths.is_full()
    }

    /// Adds a frame, in the place of the oldest one where as many as the window are held.
    pub fn push(&mut self, frame: &[u8])
        requires fits { length frame.now ≤ self.old.size }
        requires countable { self.old.pushed + 1 < 2 ^ 64 }
        ensures { self.new ≡ with_pushed self.old frame.now }
    {
        self.pushed += 1;
        let index = (self.pushed % self.window) as usize;
        self.blocks.write(index, frame);
        self.lengths.push_back(frame.len());
    }

    /// Removes the oldest frame.
    pub fn pop(&mut self)
        ensures { self.new ≡ with_popped self.old }
    {
        self.lengths.pop_front();
    }

    /// The frame at this place, the oldest one at 0.
    pub fn get(&self, place: usize) -> &[u8]
        requires { place < length self.now.frames }
        ensures { slice_get self.now.frames place ≡ Some result.now }
    {
        let length = length_at(&self.lengths, place);
        let newer = self.lengths.len() - 1 - place;
        let number = self.pushed - newer as u64;
        let block = self.blocks.get((number % self.window) as usize);
        &block[..length]
    }
}

fn length_at(lengths: &HeapCircularBuffer<usize>, place: usize) -> usize
    ensures { result ≡ slice_index lengths.now.items place }
{
    lengths.get(place).copied().unwrap_or(0)
}
