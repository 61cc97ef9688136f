//! Which known pieces are tried with a reading.
ghost use Rattle.std.specs.Prelude.{◌≡◌, ◌<◌, ◌≤◌, All, IfOk, length, vec_len};
ghost use Rattle.subset_search.specs.Subsets.{boxes_at};
ghost use Rattle.known_pieces.specs.Telling.{awaited_at, bytes_of, newest};

use crate::reading::KnownPiece;
use express_words::NoMemory;
use std::alloc::Global;

/// So many known pieces, the newest that are awaited at its address, are tried with a reading.
pub const MOST_TRIED: usize = 16;

// The pieces that are awaited at an address, by their indices among the known.
pub(crate) fn awaited_at(
    alloc: Global,
    known: &[KnownPiece],
    address: u8,
) -> Result<Vec<usize>, NoMemory>
    ensures pieces { IfOk result (λ awaited.
        boxes_at (bytes_of known.now) awaited.items ≡ awaited_at address known.now) }
    ensures known { IfOk result (λ awaited. All (λ i. i < length known.now) awaited.items) }
{
    let mut awaited = Vec::new(alloc);
    for (i, piece) in known.iter().enumerate() {
        if piece.is_awaited(address) {
            awaited.push(i)?;
        }
    }
    Ok(awaited)
}

// The newest of them.
pub(crate) fn newest(awaited: &[usize]) -> &[usize]
    ensures newest { result.now ≡ newest awaited.now }
    ensures most { length result.now ≤ 16 }
{
    let from = awaited.len().saturating_sub(MOST_TRIED);
    &awaited[from..]
}
