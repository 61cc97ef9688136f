//! The nodes of a point function's tree. A state is a u128: its control bit is bit 0, its seed is bits 1 to 127.
ghost use Rattle.std.specs.Prelude.{◌≡◌, ◌≤◌, length};
ghost use Rattle.dpf_rules.specs.Expansion.{node_key, child, block};

use crate::stream::stream_into;
use dpf_rules::{read_number, write_number};

// The key of a node: its state without the control bit, in 16 bytes with the lowest first, and 16 zero bytes.
fn node_key(state: u128) -> [u8; 32]
    ensures { result ≡ node_key state }
{
    let mut key = [0u8; 32];
    write_number(&mut key[..16], state / 2 * 2);
    key
}

/// The raw children of a state, left and right: bytes 0 to 15 and 16 to 31 of stream 0, each with its own control bit.
pub fn children(state: u128) -> (u128, u128)
    ensures left { result.0 ≡ child state 0 }
    ensures right { result.1 ≡ child state 1 }
{
    let mut bytes = [0u8; 32];
    stream_into(&node_key(state), 0, &mut bytes);
    (read_number(&bytes[..16]), read_number(&bytes[16..]))
}

/// The first bytes of a state's block, which is stream 1.
pub fn block_into(state: u128, out: &mut [u8])
    requires { length out.old ≤ 4096 }
    ensures { out.new ≡ block (length out.old) state }
{
    stream_into(&node_key(state), 1, out);
}
