//! How a letter is opened, and the record of it.
ghost use Rattle.std.specs.Prelude.{◌≡◌, ◌≤◌, ◌<◌, ◌^◌, ◌∷◌, ◌++◌, [], IsNone, IfSome, length};
ghost use Rattle.std.specs.Int.{w32, w64, to_be_bytes};
ghost use Rattle.kept_letter.specs.Notes.{IsOpening, Opening, opening_record, plain_opening};

use crate::note::put;
use letter_pieces::LetterId;
use node_journal::RECORD_MAX;

/// A card's text has at most so many bytes.
pub const CARD_MAX: usize = 4096;

// How many bytes of the record stand before the card's text.
const HEAD: usize = 45;

/// How a letter is opened.
#[derive(Clone, Copy)]
pub struct LetterOpening<'a> {
    /// The seed of all that its tries draw, which is used for nothing else.
    pub seed: [u8; 32],
    /// By what its pieces are known.
    pub id: LetterId,
    /// How many bytes its text has.
    pub count: u32,
    /// The text of its card, at most 4,096 bytes.
    pub card: &'a [u8],
}

// The number of 64 bits in front, and what follows it.
fn long_in(bytes: &[u8]) -> Option<(u64, &[u8])>
    ensures some { IfSome result (λ r. bytes.now ≡ to_be_bytes w64 r.0 ++ r.1.now) }
    ensures fits { IfSome result (λ r. r.0 < 2 ^ 64) }
    ensures none { IsNone result → length bytes.now < 8 }
{
    let [a, b, c, d, e, f, g, h, rest @ ..] = bytes else {
        return None;
    };
    let number = u64::from_be_bytes([*a, *b, *c, *d, *e, *f, *g, *h]);
    Some((number, rest))
}

// The number of 32 bits in front, and what follows it.
fn word_in(bytes: &[u8]) -> Option<(u32, &[u8])>
    ensures some { IfSome result (λ r. bytes.now ≡ to_be_bytes w32 r.0 ++ r.1.now) }
    ensures fits { IfSome result (λ r. r.0 < 2 ^ 32) }
    ensures none { IsNone result → length bytes.now < 4 }
{
    let [a, b, c, d, rest @ ..] = bytes else {
        return None;
    };
    let number = u32::from_be_bytes([*a, *b, *c, *d]);
    Some((number, rest))
}

impl<'a> LetterOpening<'a> {
    // What the record has before the card's text.
    fn head(&self) -> [u8; HEAD]
        ensures { result ≡ 32 ∷ to_be_bytes w64 self.now.id.0
            ++ (to_be_bytes w32 self.now.count ++ self.now.seed) }
    {
        let [i0, i1, i2, i3, i4, i5, i6, i7] = self.id.0.to_be_bytes();
        let [n0, n1, n2, n3] = self.count.to_be_bytes();
        let mut bytes = [0; HEAD];
        bytes[..13].copy_from_slice(&[32, i0, i1, i2, i3, i4, i5, i6, i7, n0, n1, n2, n3]);
        bytes[13..].copy_from_slice(&self.seed);
        bytes
    }

    /// The record: the tag 32, the letter's id and its text's length, big-endian, its seed, and the card's
    /// text.
    pub fn record<'r>(&self, room: &'r mut [u8; RECORD_MAX]) -> &'r [u8]
        requires { length self.now.card.now ≤ 4096 }
        ensures { result.now ≡ opening_record (plain_opening self.now) }
    {
        put(&self.head(), self.card, room)
    }

    /// The opening that a record is, if it is one.
    pub fn of(bytes: &'a [u8]) -> Option<LetterOpening<'a>>
        ensures some { IfSome result (λ o. IsOpening (plain_opening o)) }
        ensures is { IfSome result (λ o. bytes.now ≡ opening_record (plain_opening o)) }
        ensures none { IsNone result → (o : Opening) → IsOpening o → bytes.now ≡ opening_record o → ⊥ }
    {
        let [32, rest @ ..] = bytes else {
            return None;
        };
        if rest.len() < HEAD - 1 || rest.len() > HEAD - 1 + CARD_MAX {
            return None;
        }
        let (id, rest) = long_in(rest)?;
        let (count, rest) = word_in(rest)?;
        let (front, card) = rest.split_at(32);
        let mut seed = [0; 32];
        seed.copy_from_slice(front);
        Some(LetterOpening {
            seed,
            id: LetterId(id),
            count,
            card,
        })
    }
}
