//! Eight consecutive blocks of one stream at a time.
ghost use Rattle.std.specs.Prelude.{◌≡◌, ℕ, ◌+◌, ◌*◌, ◌^◌, ◌<◌, ◌≤◌, List, length};
ghost use Rattle.rand_chacha.specs.ChaCha.{key_of};
ghost use Rattle.dpf_rules.specs.Expansion.{stream_bytes};
ghost use Rattle.chacha_expand.specs.Halves.{HasHalves};

use crate::halves::joined;
use crate::lanes::{stream_states, words};
use rand_core::utils::read_u32;
use std::simd::u64x8;

/// The bytes of eight blocks.
pub const EIGHT_BLOCKS: usize = 512;

/// The words of a key.
#[inline(always)]
pub fn words_of(key: &[u8; 32]) -> [u32; 8]
    ensures { result ≡ key_of key.now }
{
    [
        read_u32(key, 0),
        read_u32(key, 1),
        read_u32(key, 2),
        read_u32(key, 3),
        read_u32(key, 4),
        read_u32(key, 5),
        read_u32(key, 6),
        read_u32(key, 7),
    ]
}

// The words of eight consecutive blocks by halves of 64 bits: half k of block j in lane j of row k.
#[inline(always)]
fn halves_of(key: &[u8; 32], stream: u64, block: u64) -> [[u64; 8]; 8]
    requires { block + 8 ≤ 2 ^ 64 }
    ensures { (j : ℕ) → j < 8 → HasHalves result j key.now stream (16 * (block + j)) }
{
    let blocks = u64x8::splat(block) + u64x8::from_array([0, 1, 2, 3, 4, 5, 6, 7]);
    let first = stream_states(&words_of(key), blocks, u64x8::splat(stream));
    let [
        w0,
        w1,
        w2,
        w3,
        w4,
        w5,
        w6,
        w7,
        w8,
        w9,
        w10,
        w11,
        w12,
        w13,
        w14,
        w15,
    ] = words(first);
    [
        joined(w0, w1).to_array(),
        joined(w2, w3).to_array(),
        joined(w4, w5).to_array(),
        joined(w6, w7).to_array(),
        joined(w8, w9).to_array(),
        joined(w10, w11).to_array(),
        joined(w12, w13).to_array(),
        joined(w14, w15).to_array(),
    ]
}

// Block j by its halves, in an array: its length is fixed, so that no place in it needs a test.
#[inline(always)]
fn block_row(halves: &[[u64; 8]; 8], j: usize) -> [u8; 64]
    requires { j < 8 }
    ensures { (key : List ℕ) (stream p : ℕ) → HasHalves halves.now j key stream p → result ≡ stream_bytes key stream (4 * p) 64 }
{
    let mut bytes = [0u8; 64];
    for k in 0..8 {
        bytes[8 * k..8 * k + 8].copy_from_slice(&halves[k][j].to_le_bytes());
    }
    bytes
}

/// Eight blocks of a stream.
pub fn eight_blocks_into(key: &[u8; 32], stream: u64, block: u64, out: &mut [u8])
    requires blocks { block + 8 ≤ 2 ^ 64 }
    requires bytes { length out.old ≡ EIGHT_BLOCKS }
    ensures { out.new ≡ stream_bytes key.now stream (64 * block) EIGHT_BLOCKS }
{
    let halves = halves_of(key, stream, block);
    for j in 0..8 {
        out[64 * j..64 * j + 64].copy_from_slice(&block_row(&halves, j));
    }
}
