//! Draws by ChaCha20.
ghost use Rattle.std.specs.Prelude.{◌≡◌, ◌+◌, ◌*◌, ◌%◌, ◌^◌};
ghost use Rattle.rand_core.specs.Stream.{next_u32, next_u64, fill_bytes};
ghost use Rattle.rand_chacha.specs.ChaCha.{of_seed};
ghost use Rattle.desk_draws.specs.Streams.{stream_from, behind, two_numbers};

use rand_chacha::ChaCha20Rng;
use rand_core::{Rng, SeedableRng};
use std::marker::Model;

/// A stream of draws. Nothing that was drawn is drawn again.
#[derive(Drop)]
pub struct Draws {
    generator: ChaCha20Rng,
}

impl Model for Draws {
    ghost use Rattle.rand_chacha.specs.ChaCha.{ChaCha};

    ghost Value = { ChaCha };

    ghost view = { λ draws. draws.generator };
}

impl Draws {
    /// The draws of a seed, which is used for nothing else.
    pub fn from_seed(seed: &[u8; 32]) -> Draws
        ensures { result ≡ of_seed seed.now }
    {
        Draws {
            generator: ChaCha20Rng::from_seed(*seed),
        }
    }

    /// 32 bytes.
    pub fn seed(&mut self) -> [u8; 32]
        ensures { (result, stream_from self.new) ≡ fill_bytes 32 (stream_from self.old) }
    {
        let mut bytes = [0; 32];
        self.generator.fill_bytes(&mut bytes);
        bytes
    }

    /// A number of 128 bits, of which the first draw is the low half.
    pub fn address(&mut self) -> u128
        ensures value { result ≡ two_numbers (stream_from self.old) }
        ensures behind { stream_from self.new ≡ behind next_u64 (behind next_u64 (stream_from self.old)) }
    {
        let low = self.number();
        let high = self.number();
        (u128::from(high) << 64) + u128::from(low)
    }

    /// A number of 64 bits, by which a letter is known.
    pub fn id(&mut self) -> u64
        ensures { (result, stream_from self.new) ≡ next_u64 (stream_from self.old) }
    {
        self.number()
    }

    /// A number of 64 bits.
    pub fn number(&mut self) -> u64
        ensures { (result, stream_from self.new) ≡ next_u64 (stream_from self.old) }
    {
        self.generator.next_u64()
    }

    /// A number of 16 bits.
    pub fn short(&mut self) -> u16
        ensures value { result ≡ (next_u32 (stream_from self.old)).0 % 2 ^ 16 }
        ensures behind { stream_from self.new ≡ behind next_u32 (stream_from self.old) }
    {
        let word = self.generator.next_u32();
        (word % 65_536) as u16
    }
}
