//! What servers and clients draw from a seed, and a challenge from its key.
ghost use Rattle.std.specs.Prelude.{◌≡◌, ℕ, ◌+◌, ◌<◌, ◌≤◌, length, slice_index, slice_range};
ghost use Rattle.dpf_rules.specs.Expansion.{draw32, owner_key, choice, challenge_r, challenge_s};

use crate::stream::{stream_from_block, stream_into};
use dpf_rules::read_number;

/// Draw `index` of a seed: the first 32 bytes of that stream.
pub fn draw32(seed: &[u8; 32], index: u64) -> [u8; 32]
    ensures { result ≡ draw32 seed.now index }
{
    let mut bytes = [0u8; 32];
    stream_into(seed, index, &mut bytes);
    bytes
}

// The 32 bytes from a place on.
fn key_at(bytes: &[u8], from: usize) -> [u8; 32]
    requires { from + 32 ≤ length bytes.now }
    ensures { result ≡ slice_range bytes.now from (from + 32) }
{
    let mut key = [0u8; 32];
    key.copy_from_slice(&bytes[from..from + 32]);
    key
}

/// The keys of server 0 and server 1 in the box that an owner registers with a serial: the first two 32 bytes of that
/// stream.
pub fn owner_keys(seed: &[u8; 32], serial: u32) -> ([u8; 32], [u8; 32])
    ensures zero { result.0 ≡ owner_key seed.now serial 0 }
    ensures one { result.1 ≡ owner_key seed.now serial 1 }
{
    let mut bytes = [0u8; 64];
    stream_into(seed, u64::from(serial), &mut bytes);
    (key_at(&bytes, 0), key_at(&bytes, 32))
}

/// The sixteen words that a client's write of a serial is made of: the first 256 bytes of that stream, 16 a word with
/// the lowest byte first.
pub fn choices(seed: &[u8; 32], serial: u32) -> [u128; 16]
    ensures { (k : ℕ) → k < 16 → slice_index result k ≡ choice seed.now serial k }
{
    let mut bytes = [0u8; 256];
    stream_into(seed, u64::from(serial), &mut bytes);
    let mut words = [0u128; 16];
    for k in 0..16 {
        words[k] = read_number(&bytes[16 * k..16 * k + 16]);
    }
    words
}

/// The challenge at an address, r and s: the first 32 bytes of a block. The address's low 64 bits are the stream, its
/// high 64 bits the block's counter.
pub fn challenge(ckey: &[u8; 32], address: u128) -> (u128, u128)
    ensures r { result.0 ≡ challenge_r ckey.now address }
    ensures s { result.1 ≡ challenge_s ckey.now address }
{
    let low = (address % (1 << 64)) as u64;
    let high = (address >> 64) as u64;
    let mut bytes = [0u8; 32];
    stream_from_block(ckey, low, high, &mut bytes);
    (read_number(&bytes[..16]), read_number(&bytes[16..]))
}
