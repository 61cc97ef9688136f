//! The token and the mask of a read or a retire, both from the stream `lane * 2^32 + serial` of the box's key.
ghost use Rattle.std.specs.Prelude.{◌≡◌, ◌≤◌, length};
ghost use Rattle.express_words.specs.Bytes.{xor_bytes};
ghost use Rattle.dpf_rules.specs.Expansion.{read_stream, token, mask};

use crate::stream::{MOST_BYTES, stream_into};
use dpf_rules::{read_number, xor_into};

fn read_stream(lane: u16, serial: u32) -> u64
    ensures { result ≡ read_stream lane serial }
{
    (u64::from(lane) << 32) + u64::from(serial)
}

/// The token: bytes 0 to 15 of the stream, the lowest first.
pub fn token(key: &[u8; 32], lane: u16, serial: u32) -> u128
    ensures { result ≡ token key.now lane serial }
{
    let mut bytes = [0u8; 16];
    stream_into(key, read_stream(lane, serial), &mut bytes);
    read_number(&bytes)
}

/// XORs the mask, the stream's bytes from 16 on, into `out`.
pub fn mask_into(key: &[u8; 32], lane: u16, serial: u32, out: &mut [u8])
    requires { length out.old ≤ 4096 }
    ensures { out.new ≡ xor_bytes out.old (mask key.now lane serial (length out.old)) }
{
    let mut bytes = [0u8; MOST_BYTES];
    let all = &mut bytes[..out.len() + 16];
    stream_into(key, read_stream(lane, serial), all);
    xor_into(out, &all[16..]);
}
