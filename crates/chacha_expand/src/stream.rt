//! The bytes of a key's stream.
ghost use Rattle.std.specs.Prelude.{◌≡◌, ◌+◌, ◌*◌, ◌/◌, ◌<◌, ◌≤◌, ◌^◌, length};
ghost use Rattle.dpf_rules.specs.Expansion.{stream_bytes};

use crate::blocks::{EIGHT_BLOCKS, eight_blocks_into};
use rand_chacha::ChaCha20Rng;
use rand_core::{Rng, SeedableRng};

/// The most bytes that a call here asks for: a token of 16 bytes and a mask of 4,096.
pub const MOST_BYTES: usize = 4112;

// So few bytes cost less by `rand_chacha`, which makes four blocks at a time.
const FEW_BYTES: usize = 256;

/// The first bytes of a stream.
pub fn stream_into(key: &[u8; 32], stream: u64, out: &mut [u8])
    requires { length out.old ≤ MOST_BYTES }
    ensures { out.new ≡ stream_bytes key.now stream 0 (length out.old) }
{
    let whole = out.len() / EIGHT_BLOCKS;
    for group in 0..whole {
        let at = EIGHT_BLOCKS * group;
        eight_blocks_into(
            key,
            stream,
            8 * group as u64,
            &mut out[at..at + EIGHT_BLOCKS],
        );
    }
    rest_into(
        key,
        stream,
        8 * whole as u64,
        &mut out[EIGHT_BLOCKS * whole..],
    );
}

// Fewer bytes of a stream than eight blocks have, from the start of a block. No generator is made for no bytes.
fn rest_into(key: &[u8; 32], stream: u64, block: u64, out: &mut [u8])
    requires bytes { length out.old < EIGHT_BLOCKS }
    requires block { block ≤ 64 }
    ensures { out.new ≡ stream_bytes key.now stream (64 * block) (length out.old) }
{
    if out.is_empty() {
        return;
    }
    if out.len() <= FEW_BYTES {
        stream_from_block(key, stream, block, out);
    } else {
        let mut bytes = [0u8; EIGHT_BLOCKS];
        eight_blocks_into(key, stream, block, &mut bytes);
        out.copy_from_slice(&bytes[..out.len()]);
    }
}

/// Bytes of a stream from the start of a block of 64 bytes.
pub fn stream_from_block(key: &[u8; 32], stream: u64, block: u64, out: &mut [u8])
    requires { 16 * block + (length out.old + 3) / 4 < 2 ^ 68 }
    ensures { out.new ≡ stream_bytes key.now stream (64 * block) (length out.old) }
{
    let mut rng = ChaCha20Rng::from_seed(*key);
    rng.set_stream(stream);
    rng.set_word_pos(u128::from(block) * 16);
    rng.fill_bytes(out);
}
