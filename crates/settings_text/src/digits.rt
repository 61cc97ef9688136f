//! Values in hexadecimal digits, of either case.
ghost use Rattle.std.specs.Prelude.{◌≡◌, length, option_map, IfOk, IfSome};
ghost use Rattle.express_texts.specs.LineFields.{spelled_word, seed_of, any_bytes_of, message_of};

use express_words::{List, NoMemory};
use std::alloc::Global;

/// An address in 32 digits, the most significant first.
pub fn address_of(digits: &str) -> Option<u128>
    ensures { result ≡ spelled_word digits.now }
{
    express_texts::spelled_word(digits.as_bytes())
}

/// A seed in 64 digits.
pub fn seed_of(digits: &str) -> Option<[u8; 32]>
    ensures { result ≡ seed_of digits.now }
{
    express_texts::seed_of(digits.as_bytes())
}

// The bytes that were found, as a list.
fn listed(found: Option<Vec<u8>>) -> Option<List<u8>>
    ensures { result ≡ option_map (λ bytes. bytes.items) found }
{
    match found {
        Some(bytes) => Some(List::from_vec(bytes)),
        None => None,
    }
}

/// Any bytes, in twice as many digits.
pub fn any_bytes_of(alloc: Global, digits: &str) -> Result<Option<List<u8>>, NoMemory>
    ensures { IfOk result (λ bytes. bytes ≡ any_bytes_of digits.now) }
{
    let found = express_texts::any_bytes_of(alloc, digits.as_bytes())?;
    Ok(listed(found))
}

/// A message of a width, in twice as many digits.
pub fn message_of(alloc: Global, width: u32, digits: &str) -> Result<Option<List<u8>>, NoMemory>
    ensures value { IfOk result (λ message. message ≡ message_of width digits.now) }
    ensures width { IfOk result (λ message. IfSome message (λ bytes. length bytes ≡ width)) }
{
    let found = express_texts::message_of(alloc, width, digits.as_bytes())?;
    Ok(listed(found))
}
