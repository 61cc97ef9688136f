//! The bytes of 256 numbers, so that a bit of each is found in a vector of bytes.
ghost use Rattle.std.specs.Prelude.{◌≡◌, ℕ, ◌+◌, ◌*◌, ◌<◌, ◌≤◌, ◌/◌, ◌%◌, ◌^◌, ◌==◌, if◌then◌else◌, slice_index};
ghost use Rattle.std.specs.Int.{bit_at};
ghost use Rattle.sliced_sums.specs.Places.{AreBytesOf};

use std::simd::prelude::*;

/// Numbers and their bytes. The contracts speak of the numbers, and the code reads the bytes.
#[derive(Drop)]
pub struct Bytes {
    numbers: [u128; 256],
    bytes: [[u8; 256]; 16],
    ghost bytes_are: { AreBytesOf bytes numbers },
}

// Byte `at` of each number.
fn row(numbers: &[u128; 256], at: usize) -> [u8; 256]
    requires { at < 16 }
    ensures { (j : ℕ) → j < 256 → slice_index result j ≡ slice_index numbers.now j / 2 ^ (8 * at) % 2 ^ 8 }
{
    let mut row = [0; 256];
    for j in 0..256usize {
        row[j] = ((numbers[j] >> (8 * at as u32)) % 256) as u8;
    }
    row
}

// The places where a byte of 64 is `byte`.
fn equal_to(v: u8x64, byte: u8) -> u64
    ensures { (i : ℕ) → i < 64 → bit_at result i ≡ (if slice_index v i == byte then 1 else 0) }
{
    v.simd_eq(u8x64::splat(byte)).to_bitmask()
}

// Each byte with no bit but one.
fn only(block: u8x64, bit: u32) -> u8x64
    requires { bit < 8 }
    ensures { (i : ℕ) → i < 64 → slice_index result i ≡ bit_at (slice_index block i) bit * 2 ^ bit }
{
    block & u8x64::splat(1 << bit)
}

// A bit of each of 64 bytes.
fn bits_of(block: u8x64, bit: u32) -> u64
    requires { bit < 8 }
    ensures { (i : ℕ) → i < 64 → bit_at result i ≡ bit_at (slice_index block i) bit }
{
    equal_to(only(block, bit), 1 << bit)
}

impl Bytes {
    /// The bytes of numbers.
    pub fn of(numbers: &[u128; 256]) -> Bytes
        ensures { result.numbers ≡ numbers.now }
    {
        let mut bytes = [[0; 256]; 16];
        for at in 0..16usize {
            bytes[at] = row(numbers, at);
        }
        Bytes {
            numbers: *numbers,
            bytes,
        }
    }

    /// Bit `bit` of the numbers at 64 places.
    pub fn bits(&self, from: usize, bit: u32) -> u64
        requires from { from ≤ 192 }
        requires bit { bit < 128 }
        ensures { (i : ℕ) → i < 64
            → bit_at result i ≡ bit_at (slice_index self.now.numbers (from + i)) bit }
    {
        let row = &self.bytes[(bit / 8) as usize];
        bits_of(u8x64::from_slice(&row[from..from + 64]), bit % 8)
    }
}
