//! Readings of boxes, and the pieces that are known by them.
ghost use Rattle.std.specs.Prelude.{◌≡◌, ◌↔◌, false, slice_set, IsTrue};
ghost use Rattle.known_pieces.specs.Telling.{is_awaited};

use letter_pieces::MOST_ADDRESSES;
use std::convert::AsSlice;
use std::marker::Model;

/// The boxes of a card.
#[derive(Clone, Copy, Debug, PartialEq, Eq)]
pub struct Card {
    /// How many addresses it names, at most 64.
    pub addresses: u8,
    /// How wide a box is, in bytes.
    pub width: usize,
}

/// What the box at an address held when it was read.
#[derive(Drop)]
pub struct Reading<'a> {
    /// The address, by its number on the card, from 0.
    pub address: u8,
    /// All bytes of the box.
    pub bytes: &'a [u8],
}

impl<'a> Model for Reading<'a> {
    ghost use Rattle.known_pieces.specs.Known.{Reading as BoxReading};

    ghost Value = { BoxReading };

    ghost view = { λ r. record { address = r.address; bytes = r.bytes.now } };
}

impl<'a> Reading<'a> {
    /// The same reading.
    pub fn copied(&self) -> Reading<'a>
        ensures { result ≡ self.now }
    {
        Reading {
            address: self.address,
            bytes: self.bytes,
        }
    }
}

/// A piece that is known, and where it is awaited: at those of its places where no reading was found to hold
/// it.
#[derive(Drop)]
pub struct KnownPiece {
    bytes: Vec<u8>,
    awaited: [bool; MOST_ADDRESSES],
}

impl Model for KnownPiece {
    ghost use Rattle.known_pieces.specs.Telling.{KnownPiece as PieceKnown};

    ghost Value = { PieceKnown };

    ghost view = { λ p. record { bytes = p.bytes.items; awaited = p.awaited } };
}

impl KnownPiece {
    // A piece of these bytes.
    pub(crate) fn new(bytes: Vec<u8>, awaited: [bool; MOST_ADDRESSES]) -> KnownPiece
        ensures bytes { result.bytes ≡ bytes.items }
        ensures awaited { result.awaited ≡ awaited }
    {
        KnownPiece { bytes, awaited }
    }

    /// What its boxes hold.
    pub fn bytes(&self) -> &[u8]
        ensures { result.now ≡ self.now.bytes }
    {
        self.bytes.as_slice()
    }

    // Whether its boxes hold these bytes.
    pub(crate) fn is_of(&self, bytes: &[u8]) -> bool
        ensures { IsTrue result ↔ self.now.bytes ≡ bytes.now }
    {
        self.bytes.as_slice() == bytes
    }

    /// Whether it is awaited at an address.
    pub fn is_awaited(&self, address: u8) -> bool
        ensures { result ≡ is_awaited address self.now }
    {
        self.awaited
            .get(usize::from(address))
            .copied()
            .unwrap_or(false)
    }

    // It was found at an address.
    pub(crate) fn found_at(&mut self, address: u8)
        ensures bytes { self.new.bytes ≡ self.old.bytes }
        ensures awaited { self.new.awaited ≡ slice_set self.old.awaited address false }
    {
        let address = usize::from(address);
        if address < MOST_ADDRESSES {
            self.awaited[address] = false;
        }
    }
}

impl AsSlice<u8> for KnownPiece {
    ghost items = { λ p. p.bytes };

    fn as_slice(&self) -> &[u8] {
        self.bytes.as_slice()
    }
}

/// What readings tell.
#[derive(Drop)]
pub struct Told<'a> {
    /// The pieces that are known, in the order in which they became known.
    pub known: Vec<KnownPiece>,
    /// The readings that no known pieces open.
    pub left: Vec<Reading<'a>>,
}
