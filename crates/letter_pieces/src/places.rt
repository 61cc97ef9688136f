//! The places of a letter.
ghost use Rattle.std.specs.Prelude.{◌≡◌, ℕ, ◌+◌, ◌*◌, ◌<◌, ◌≤◌, take, drop};
ghost use Rattle.rand_chacha.specs.ChaCha.{of_seed};
ghost use Rattle.letter_pieces.specs.Sizes.{copies};
ghost use Rattle.letter_pieces.specs.Places.{at_draw, drawn, places};

use crate::cutting::{COPIES, MOST_ADDRESSES};
use crate::piece::LetterId;
use rand_chacha::ChaCha20Rng;
use rand_core::SeedableRng;
use rand_core::utils::NextWord;
use sha2::{Digest, Sha256};
use std::marker::Model;

/// The addresses of a card, by number from 0, in the order in which a letter takes them: a permutation that
/// is drawn of the letter's id, and that whoever knows the id can draw again.
#[derive(Drop)]
pub struct Places {
    order: [u8; MOST_ADDRESSES],
    count: usize,
}

impl Model for Places {
    ghost use Rattle.std.specs.Prelude.{List, ℕ, take, ◌≤◌};

    ghost Value = { List ℕ };

    ghost view = { λ places. take places.count places.order };

    ghost invariant = { λ places. places.count ≤ 64 };
}

impl Places {
    /// The places of a letter on a card of so many addresses.
    pub fn draw(letter: LetterId, addresses: usize) -> Places
        requires { addresses ≤ 64 }
        ensures { result ≡ places letter.0 addresses }
    {
        let mut stream = stream_of(letter);
        let mut order = [0; MOST_ADDRESSES];
        for i in 0..addresses {
            order[i] = i as u8;
            let other = draw(&mut stream) % (i as u64 + 1);
            order.swap(i, other as usize);
        }
        Places {
            order,
            count: addresses,
        }
    }

    /// The places of a part: three of them, or fewer where the card has no more.
    pub fn of_part(&self, part: u8) -> &[u8]
        ensures { result.now ≡ take copies (drop (part * copies) self.now) }
    {
        let order = &self.order[..self.count];
        let from = (COPIES * usize::from(part)).min(order.len());
        let rest = &order[from..];
        &rest[..COPIES.min(rest.len())]
    }
}

// The stream of a letter's draws.
fn stream_of(letter: LetterId) -> ChaCha20Rng
    ensures { result ≡ at_draw letter.0 0 }
{
    let mut hasher = Sha256::new();
    hasher.update(letter.0.to_be_bytes());
    ChaCha20Rng::from_seed(hasher.finalize())
}

// The next draw of a letter.
fn draw(stream: &mut ChaCha20Rng) -> u64
    ensures value { (id i : ℕ) → i < 64 → stream.old ≡ at_draw id i → result ≡ drawn id i }
    ensures next { (id i : ℕ) → i < 64 → stream.old ≡ at_draw id i → stream.new ≡ at_draw id (i + 1) }
{
    let low = stream.next_word();
    let high = stream.next_word();
    u64::from(low) + (u64::from(high) << 32)
}
