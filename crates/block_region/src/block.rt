//! The right to a block.
use crate::shelf::BlockShelf;
use std::marker::Model;

/// A block that was taken from a region, which it knows by its address. It can't be copied, so it is given back once at
/// most, and to that region alone.
#[derive(Drop)]
pub struct Block {
    home: *const BlockShelf,
    class: u8,
    index: usize,
}

impl Model for Block {
    ghost use Rattle.block_region.specs.Region.{Place};
    ghost use Rattle.block_region.specs.Codes.{place_code};

    ghost Value = { Place };

    ghost coded = { place_code };

    ghost view = { λ b. record { home = b.home; class = b.class; index = b.index } };
}

impl Block {
    ghost use Rattle.std.specs.Prelude.{◌≡◌};

    pub(crate) fn new(home: *const BlockShelf, class: u8, index: usize) -> Block
        ensures { result ≡ record { home = home; class = class; index = index } }
    {
        Block { home, class, index }
    }

    pub(crate) fn class(&self) -> usize
        ensures { result ≡ self.now.class }
    {
        usize::from(self.class)
    }

    pub(crate) fn index(&self) -> usize
        ensures { result ≡ self.now.index }
    {
        self.index
    }
}
