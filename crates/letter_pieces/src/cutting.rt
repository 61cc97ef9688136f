//! How a letter is cut into parts.
ghost use Rattle.std.specs.Prelude.{◌≡◌, ◌<◌, ◌≤◌, ◌↔◌, length, IsOk, IfOk, IfErr};
ghost use Rattle.file_carry.specs.Parts.{IsPartWidth};
ghost use Rattle.letter_pieces.specs.Sizes.{IsCard, room, copies, most_parts, most_text, IsLetterLength};
ghost use Rattle.letter_pieces.specs.Pieces.{encoded, parts_of, piece_of};
ghost use Rattle.letter_pieces.specs.Reading.{content, fault_of};

use crate::fault::LetterFault;
use crate::piece::{HEADER, LetterId, Piece, write_piece};

/// A card has at most so many addresses.
pub const MOST_ADDRESSES: usize = 64;

/// Each piece of a letter is written to so many addresses, where the card has as many.
pub const COPIES: usize = 3;

/// The most parts of a letter on a card of so many addresses: a third of them, and one where there are fewer
/// than six.
pub fn most_parts(addresses: usize) -> usize
    ensures { result ≡ most_parts addresses }
{
    (addresses / COPIES).max(1)
}

/// The most bytes of a letter on a card of so many addresses, in boxes of `width` bytes.
pub fn most_text(addresses: usize, width: usize) -> usize
    requires { IsCard addresses width }
    ensures { result ≡ most_text addresses width }
{
    most_parts(addresses) * (width - HEADER)
}

/// How many parts a letter of `length` bytes has on a card of so many addresses, in boxes of `width` bytes.
/// The error says the most bytes that fit, or that there is none.
pub fn parts_for(addresses: usize, width: usize, length: usize) -> Result<u8, LetterFault>
    requires { IsCard addresses width }
    ensures fits { IsOk result ↔ IsLetterLength addresses width length }
    ensures parts { IfOk result (λ parts. parts ≡ parts_of width length) }
    ensures most { IfOk result (λ parts. parts ≤ most_parts addresses) }
    ensures fault { IfErr result (λ e. e ≡ fault_of addresses width length) }
{
    if length == 0 {
        return Err(LetterFault::NoText);
    }
    let most = most_text(addresses, width);
    if length > most {
        return Err(LetterFault::TooLong(most as u32));
    }
    Ok(parts_at(width, length) as u8)
}

/// Writes a part of a letter, which is counted from 0, into `out`, which is as long as a box.
pub fn cut_into(text: &[u8], letter: LetterId, part: u8, out: &mut [u8])
    requires width { IsPartWidth (length out.old) }
    requires some { 1 ≤ length text.now }
    requires parts { parts_of (length out.old) (length text.now) < 256 }
    requires part { part < parts_of (length out.old) (length text.now) }
    ensures { out.new ≡ encoded (length out.old) (piece_of (length out.old) letter.0 text.now part) }
{
    let piece = piece_of(text, letter, out.len(), part);
    write_piece(&piece, out);
}

/// The piece of a letter's part, which is counted from 0, for boxes of `width` bytes.
pub fn piece_of(text: &[u8], letter: LetterId, width: usize, part: u8) -> Piece<'_>
    requires width { IsPartWidth width }
    requires part { part < parts_of width (length text.now) }
    requires parts { parts_of width (length text.now) < 256 }
    ensures { content result ≡ piece_of width letter.0 text.now part }
{
    let room = width - HEADER;
    let (_, rest) = text.split_at(usize::from(part) * room);
    Piece {
        letter,
        part,
        parts: parts_at(width, text.len()) as u8,
        text: &rest[..room.min(rest.len())],
    }
}

#[tactic(auto, unfolding(file_carry::specs::Parts::count_of))]
fn parts_at(width: usize, length: usize) -> usize
    requires { 28 < width }
    ensures { result ≡ parts_of width length }
{
    length.div_ceil(width - HEADER).max(1)
}
