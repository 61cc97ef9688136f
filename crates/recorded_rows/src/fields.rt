//! The fields of a line, which stand apart by one space.
use crate::fault::{Fault, Result};
use hex::FromHexError;
use std::alloc::Global;
use std::str::FromStr;

/// The first field, and those behind it.
pub(crate) fn first_of(text: &str) -> Result<(&str, &str)> {
    text.split_once(' ').ok_or(Fault::Unknown)
}

/// A number in decimal digits.
pub(crate) fn number_of<N: FromStr>(digits: &str) -> Result<N>
where
    N::Err: Drop,
{
    digits.parse::<N>().map_err(|_| Fault::Unknown)
}

/// Any bytes in hexadecimal digits; `-` stands for none.
pub(crate) fn bytes_of(alloc: Global, digits: &str) -> Result<Vec<u8>> {
    if digits == "-" {
        return Ok(Vec::new(alloc));
    }
    match hex::decode(alloc, digits.as_bytes()) {
        Ok(bytes) => Ok(bytes),
        Err(FromHexError::OutOfMemory) => Err(Fault::NoMemory),
        Err(_) => Err(Fault::Unknown),
    }
}

/// 32 bytes in hexadecimal digits.
pub(crate) fn seed_of(digits: &str) -> Result<[u8; 32]> {
    let mut seed = [0u8; 32];
    match hex::decode_to_slice(digits.as_bytes(), &mut seed) {
        Ok(()) => Ok(seed),
        Err(_) => Err(Fault::Unknown),
    }
}

/// An address in hexadecimal digits, the most significant first.
pub(crate) fn address_of(digits: &str) -> Result<u128> {
    let mut address = [0u8; 16];
    match hex::decode_to_slice(digits.as_bytes(), &mut address) {
        Ok(()) => Ok(u128::from_be_bytes(address)),
        Err(_) => Err(Fault::Unknown),
    }
}
