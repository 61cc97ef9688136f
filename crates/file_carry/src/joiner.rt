//! Boxes that are taken one after the other, and then joined.
ghost use Rattle.std.specs.Prelude.{◌≡◌, ◌<◌, ◌≤◌, ◌++◌, [], ◌∷◌, length, slice_index_or};
ghost use Rattle.std.specs.Prelude.{Some, Ok, Err, IfOk, IfErr};
ghost use Rattle.std.specs.Borrow.{sem};
ghost use Rattle.file_carry.specs.Parts.{IsPartWidth};
ghost use Rattle.file_carry.specs.Boxes.{join};
ghost use Rattle.file_carry.specs.FaultText.{fault_text};

use crate::joining::{join_into, row};
use express_words::NoMemory;
use std::alloc::Global;
use std::fmt;
use std::marker::Model;

/// The first box that isn't there, isn't the part of its index, or has another id or count than box 0.
#[derive(Clone, Copy, Debug, PartialEq, Eq)]
pub struct Missing(pub u32);

/// The words that are printed of it.
impl fmt::Display for Missing {
    ghost output = { λ missing. Some (fault_text missing) };

    fn fmt<W: fmt::Write>(&self, f: &mut fmt::Formatter<W>) -> fmt::Result {
        write!(f, "box {} has no part of the file", self.0)
    }
}

/// Boxes of one width, in room that was taken before.
#[derive(Drop)]
pub struct Joiner {
    bytes: Vec<u8>,
    file: Vec<u8>,
    width: usize,
    taken: u32,
    boxes: u32,
}

impl Model for Joiner {
    ghost use Rattle.std.specs.Prelude.{◌≡◌, ◌*◌, ◌≤◌, length, vec_capacity};
    ghost use Rattle.file_carry.specs.Joining.{Joining, rows};

    ghost Value = { Joining };

    ghost view = { λ j. record {
      width = j.width;
      most = j.boxes;
      taken = rows j.width j.taken j.bytes.items;
    } };

    ghost invariant = { λ j. (32 ≤ j.width) × (j.width ≤ 4096) × (j.taken ≤ j.boxes) × (j.boxes ≤ 4096)
        × (length j.bytes.items ≡ j.taken * j.width)
        × (j.boxes * j.width ≤ vec_capacity j.bytes) × (j.boxes * j.width ≤ vec_capacity j.file) };
}

impl Joiner {
    ghost use Rattle.file_carry.specs.Resting.{Stays};

    /// Room for 1 to 4,096 boxes of `width` bytes, and for the file that they join to. The width is a
    /// multiple of 16 from 32 to 4,096. No other call takes memory.
    pub fn open(alloc: Global, boxes: u32, width: u32) -> Result<Joiner, NoMemory>
        requires least { 1 ≤ boxes }
        requires most { boxes ≤ 4096 }
        requires width { IsPartWidth width }
        ensures { IfOk result (λ j. j ≡ record { width = width; most = boxes; taken = [] }) }
    {
        let width = width as usize;
        let room = boxes as usize * width;
        let bytes = Vec::with_capacity(alloc, room)?;
        let file = Vec::with_capacity(alloc, room)?;
        Ok(Joiner {
            bytes,
            file,
            width,
            taken: 0,
            boxes,
        })
    }

    /// Takes the next box.
    pub fn take(&mut self, bytes: &[u8])
        requires room { length self.old.taken < self.old.most }
        requires width { length bytes.now ≡ self.old.width }
        ensures { self.new ≡ record {
          width = self.old.width;
          most = self.old.most;
          taken = self.old.taken ++ bytes.now ∷ [];
        } }
    {
        let Ok(()) = self.bytes.extend_from_slice(bytes) else {
            unreachable!()
        };
        self.taken += 1;
    }

    /// The file that the boxes join to, or the first of them that is missing. The boxes stay.
    pub fn finish(&mut self) -> Result<&[u8], Missing>
        ensures* stays { sem 𝓛 (Stays self.entry) }
        ensures whole { IfOk result (λ file. join self.old.taken ≡ Ok file.now) }
        ensures missing { IfErr result (λ missing. join self.old.taken ≡ Err missing.0) }
    {
        match join_into(&self.bytes, self.width, self.taken, &mut self.file) {
            Ok(()) => Ok(&self.file),
            Err(index) => Err(Missing(index)),
        }
    }

    /// A box that was taken.
    pub fn box_bytes(&self, index: u32) -> &[u8]
        requires { index < length self.now.taken }
        ensures { result.now ≡ slice_index_or self.now.taken index [] }
    {
        row(&self.bytes, self.width, self.taken, index)
    }
}
