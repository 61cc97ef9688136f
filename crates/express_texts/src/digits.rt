//! Values in hexadecimal digits of either case, the most significant first.
ghost use Rattle.std.specs.Prelude.{◌≡◌, option_map, IfOk};
ghost use Rattle.express_texts.specs.LineFields.{spelled_word, word_at, seed_of, any_bytes_of, message_of};

use express_words::NoMemory;
use hex::FromHexError;
use std::alloc::Global;

const WORD_DIGITS: usize = 32;

/// A field value or an address in 32 hexadecimal digits.
#[tactic(auto, unfolding(crate::specs::LineFields::spelled_word))]
pub fn spelled_word(digits: &[u8]) -> Option<u128>
    ensures { result ≡ spelled_word digits.now }
{
    let mut word = [0u8; 16];
    match hex::decode_to_slice(digits, &mut word) {
        Ok(()) => Some(u128::from_be_bytes(word)),
        Err(_) => None,
    }
}

/// A field value or an address at the front, and what follows it.
#[tactic(auto, using(std::proofs::lemmas::List::take_min, std::proofs::lemmas::List::drop_min), unfolding(crate::specs::LineFields::word_at))]
pub fn word_at(bytes: &[u8]) -> Option<(u128, &[u8])>
    ensures { option_map (λ r. (r.0, r.1.now)) result ≡ word_at bytes.now }
{
    let (digits, rest) = bytes.split_at(WORD_DIGITS.min(bytes.len()));
    let word = spelled_word(digits)?;
    Some((word, rest))
}

/// A seed in 64 hexadecimal digits.
#[tactic(auto, unfolding(crate::specs::LineFields::seed_of))]
pub fn seed_of(digits: &[u8]) -> Option<[u8; 32]>
    ensures { result ≡ seed_of digits.now }
{
    let mut seed = [0u8; 32];
    match hex::decode_to_slice(digits, &mut seed) {
        Ok(()) => Some(seed),
        Err(_) => None,
    }
}

/// Any bytes, in twice as many hexadecimal digits.
#[tactic(auto, unfolding(crate::specs::LineFields::any_bytes_of))]
pub fn any_bytes_of(alloc: Global, digits: &[u8]) -> Result<Option<Vec<u8>>, NoMemory>
    ensures { IfOk result (λ found. option_map (λ bytes. bytes.items) found ≡ any_bytes_of digits.now) }
{
    match hex::decode(alloc, digits) {
        Ok(bytes) => Ok(Some(bytes)),
        Err(FromHexError::OutOfMemory) => Err(NoMemory),
        Err(_) => Ok(None),
    }
}

/// A message of a width, in twice as many hexadecimal digits.
#[tactic(auto, unfolding(crate::specs::LineFields::message_of, crate::specs::LineFields::any_bytes_of))]
pub fn message_of(alloc: Global, width: u32, digits: &[u8]) -> Result<Option<Vec<u8>>, NoMemory>
    ensures { IfOk result (λ found.
        option_map (λ message. message.items) found ≡ message_of width digits.now) }
{
    if digits.len() != 2 * width as usize {
        return Ok(None);
    }
    any_bytes_of(alloc, digits)
}
