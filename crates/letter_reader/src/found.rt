//! Pieces that were found in a reading.
ghost use Rattle.std.specs.Prelude.{◌≡◌, ◌<◌, ◌≤◌, All, length};
ghost use Rattle.subset_search.specs.Subsets.{boxes_at, chosen_below};
ghost use Rattle.known_pieces.specs.Telling.{bytes_of};
ghost use Rattle.known_pieces.specs.Opening.{AreMarked};

use crate::reading::KnownPiece;

// Those of the tried pieces that are chosen are no longer awaited at an address.
pub(crate) fn mark(known: &mut [KnownPiece], address: u8, tried: &[usize], chosen: &[bool])
    requires known { All (λ i. i < length known.old) tried.now }
    requires room { length tried.now ≤ length chosen.now }
    ensures { AreMarked address
        (chosen_below (length tried.now) (boxes_at (bytes_of known.old) tried.now) chosen.now)
        known.old known.new }
{
    for (k, i) in tried.iter().enumerate() {
        if chosen[k] {
            let piece = &mut known[*i];
            piece.found_at(address);
        }
    }
}
