//! Bytes to be given, and bytes that were taken.
ghost use Rattle.std.specs.Prelude.{◌≡◌, ℕ, ◌+◌, ◌-◌, ◌<◌, ◌≤◌, min, [], ◌++◌, length, take, drop, IfOk, MatchBool, vec_len, vec_capacity};
ghost use Rattle.express_words.specs.Memory.{HoldsIfRoom, Supply, advanced};

use crate::NoMemory;
use std::alloc::Global;
use std::marker::Model;

/// Bytes to be given, and how many of them were.
#[derive(Drop)]
pub struct Input {
    bytes: Vec<u8>,
    place: usize,
}

impl Model for Input {
    ghost Value = { Supply };

    ghost view = { λ i. record { given = take i.place i.bytes.items; left = drop i.place i.bytes.items } };

    ghost invariant = { λ i. i.place ≤ vec_len i.bytes };
}

impl Input {
    /// A copy of `bytes`, of which none is given yet; NoMemory where none can be had.
    pub fn new(alloc: Global, bytes: &[u8]) -> Result<Input, NoMemory>
        ensures { IfOk result (λ i. i ≡ record { given = []; left = bytes.now }) }
    {
        match Vec::from_slice(alloc, bytes) {
            Ok(bytes) => Ok(Input { bytes, place: 0 }),
            Err(_) => Err(NoMemory),
        }
    }

    /// Copies as many bytes as are left and fit into the front of `buf`.
    pub fn give(&mut self, buf: &mut [u8]) -> usize
        ensures amount { result ≡ min (length self.old.left) (length buf.old) }
        ensures copied { buf.new ≡ take result self.old.left ++ drop result buf.old }
        ensures advanced { self.new ≡ advanced result self.old }
    {
        let (_, left) = self.bytes.split_at(self.place);
        let count = copy_front(left, buf);
        self.place += count;
        count
    }

    /// The bytes that were given, in order.
    pub fn given(&self) -> &[u8]
        ensures { result.now ≡ self.now.given }
    {
        let (given, _) = self.bytes.split_at(self.place);
        given
    }

    /// Back to the first byte.
    pub fn restart(&mut self)
        ensures { self.new ≡ record { given = []; left = self.old.given ++ self.old.left } }
    {
        self.place = 0;
    }
}

// Copies as much as there is and fits, and says how much that was.
fn copy_front(from: &[u8], to: &mut [u8]) -> usize
    ensures count { result ≡ min (length from.now) (length to.old) }
    ensures copied { to.new ≡ take result from.now ++ drop result to.old }
{
    let count = from.len().min(to.len());
    to[..count].copy_from_slice(&from[..count]);
    count
}

/// Room for bytes to be taken.
#[derive(Drop)]
pub struct Output {
    bytes: Vec<u8>,
    room: usize,
}

impl Model for Output {
    ghost use Rattle.std.specs.Prelude.{List, ℕ, ◌+◌, ◌≤◌, vec_len, vec_capacity};

    ghost Value = { List ℕ × ℕ };

    ghost view = { λ o. (o.bytes.items, o.room) };

    ghost invariant = { λ o. vec_len o.bytes + o.room ≤ vec_capacity o.bytes };
}

impl Output {
    /// Empty, with room for so many bytes; NoMemory where none can be had.
    pub fn new(alloc: Global, room: usize) -> Result<Output, NoMemory>
        ensures { IfOk result (λ o. o ≡ ([], room)) }
    {
        match Vec::with_capacity(alloc, room) {
            Ok(bytes) => Ok(Output { bytes, room }),
            Err(_) => Err(NoMemory),
        }
    }

    /// Takes all of `bytes` where they fit, else none.
    pub fn hold(&mut self, bytes: &[u8]) -> bool
        ensures { HoldsIfRoom bytes.now self.old self.new result }
    {
        if bytes.len() > self.room {
            return false;
        }
        match self.bytes.extend_from_slice(bytes) {
            Ok(()) => {
                self.room -= bytes.len();
                true
            }
            Err(_) => unreachable!(),
        }
    }

    /// The bytes that it holds, in order.
    pub fn written(&self) -> &[u8]
        ensures { result.now ≡ self.now.0 }
    {
        &self.bytes
    }

    /// Back to all of its room.
    pub fn restart(&mut self)
        ensures { self.new ≡ ([], length self.old.0 + self.old.1) }
    {
        self.room += self.bytes.len();
        self.bytes.clear();
    }
}
