//! The view of a public part's bytes: 128 words of 16 bytes, 16 bytes of right bits, and the last correction.
ghost use Rattle.std.specs.Prelude.{◌≡◌, ◌+◌, ◌<◌, ◌↔◌, IsSome, IfSome, List, ℕ, length};
ghost use Rattle.std.specs.Int.{from_bool};
ghost use Rattle.dpf_rules.specs.Walk.{word_of, right_of, last_of};
ghost use Rattle.express_words.specs.Limits.{IsPart, IsWidth, levels_len};

use dpf_rules::read_number;
use express_words::limits::LEVELS_LEN;
use std::marker::Model;

/// The public part of a point function, a view of its bytes.
#[derive(Drop)]
pub struct PublicPart<'a> {
    bytes: &'a [u8],
}

impl<'a> Model for PublicPart<'a> {
    ghost Value = { List ℕ };

    ghost view = { λ p. p.bytes.now };

    ghost invariant = { λ p. IsPart p.bytes.now };
}

impl<'a> PublicPart<'a> {
    /// Bytes as a public part, if they have the length of one: 2,064 and a multiple of 16 from 16 to 4,096.
    pub fn of(bytes: &'a [u8]) -> Option<PublicPart<'a>>
        ensures variant { IsSome result ↔ IsPart bytes.now }
        ensures value { IfSome result (λ p. p ≡ bytes.now) }
    {
        if bytes.len() < LEVELS_LEN + 16
            || bytes.len() > LEVELS_LEN + 4096
            || bytes.len() % 16 != 0
        {
            return None;
        }
        Some(PublicPart { bytes })
    }

    /// The word of a level, 0 to 127: its 16 bytes as a number, the lowest byte first.
    pub fn word(&self, level: u8) -> u128
        requires { level < 128 }
        ensures { result ≡ word_of self.now level }
    {
        let at = 16 * level as usize;
        read_number(&self.bytes[at..at + 16])
    }

    /// The right bit of a level, 0 to 127: that bit, counted from the lowest, of the 16 bytes of right bits, read as a
    /// word is.
    pub fn right(&self, level: u8) -> bool
        requires { level < 128 }
        ensures { right_of self.now level ≡ from_bool result }
    {
        let rights = read_number(&self.bytes[2048..LEVELS_LEN]);
        (rights >> level) % 2 == 1
    }

    /// The last correction, as long as a message.
    pub fn last(&self) -> &[u8]
        ensures value { result.now ≡ last_of self.now }
        ensures width { IsWidth (length (last_of self.now)) }
        ensures rest { levels_len + length (last_of self.now) ≡ length self.now }
    {
        &self.bytes[LEVELS_LEN..]
    }
}
