//! A piece that becomes known.
ghost use Rattle.std.specs.Prelude.{◌≡◌, ◌≤◌, ◌↔◌, ◌⊎◌, ℕ, true, false, OnOk, IsTrue, slice_index_or};
ghost use Rattle.std.specs.List.{Contains};
ghost use Rattle.letter_pieces.specs.Places.{places_of};
ghost use Rattle.letter_pieces.specs.Reading.{content};
ghost use Rattle.known_pieces.specs.Telling.{bytes_of};
ghost use Rattle.known_pieces.specs.Opening.{IsAdmitted};

use crate::reading::KnownPiece;
use express_words::NoMemory;
use letter_pieces::{MOST_ADDRESSES, Piece, Places, laws, read_piece};

// Puts a sum that holds a piece to the known ones, unless it is one.
pub(crate) fn admit(
    addresses: u8,
    address: u8,
    sum: Vec<u8>,
    known: &mut Vec<KnownPiece>,
) -> Result<(), NoMemory>
    requires { addresses ≤ 64 }
    ensures { OnOk result (IsAdmitted addresses address sum.items known.old.items known.new.items) }
{
    laws::pieces_are_told_apart();
    let Some(piece) = read_piece(sum.as_slice()) else {
        return Ok(());
    };
    if is_known(known.as_slice(), sum.as_slice()) {
        return Ok(());
    }
    let awaited = awaits(addresses, address, &piece);
    known.push(KnownPiece::new(sum, awaited))?;
    Ok(())
}

fn is_known(known: &[KnownPiece], bytes: &[u8]) -> bool
    ensures { IsTrue result ↔ Contains (bytes_of known.now) bytes.now }
{
    for piece in known {
        if piece.is_of(bytes) {
            return true;
        }
    }
    false
}

// Where a piece is awaited that became known at an address: at its other places.
fn awaits(addresses: u8, address: u8, piece: &Piece) -> [bool; MOST_ADDRESSES]
    requires { addresses ≤ 64 }
    ensures named { (a : ℕ) → slice_index_or result a false ≡ true
        → Contains (places_of addresses (content piece.now)) a }
    ensures awaits { (a : ℕ) → Contains (places_of addresses (content piece.now)) a
        → (slice_index_or result a false ≡ true) ⊎ (a ≡ address) }
{
    laws::letters_never_meet_themselves();
    let places = Places::draw(piece.letter, usize::from(addresses));
    let mut awaited = [false; MOST_ADDRESSES];
    for place in places.of_part(piece.part) {
        if *place != address {
            awaited[usize::from(*place)] = true;
        }
    }
    awaited
}
