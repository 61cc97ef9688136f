//! The walk of one server to the leaf of an address, and the write bytes of a leaf.
ghost use Rattle.std.specs.Prelude.{◌≡◌, ◌<◌, length};
ghost use Rattle.express_words.specs.Bytes.{xor_bytes};
ghost use Rattle.dpf_rules.specs.Walk.{leaf_of, leaf_bytes, last_of};

use crate::levels::{side_at, step, with_bit};
use crate::part::PublicPart;
use chacha_expand::{block_into, children};
use dpf_rules::xor_into;

/// The leaf of an address on the walk of server 0 or 1, from its root. Bit 0 of the root is not read.
pub fn walk(part: &PublicPart, server: u8, root: u128, address: u128) -> u128
    requires { server < 2 }
    ensures { result ≡ leaf_of part.now server root address }
{
    let mut state = with_bit(root, u128::from(server));
    for level in 0..128u8 {
        let side = side_at(address, level);
        let right = u128::from(part.right(level));
        state = step(part.word(level), right, side, state, children(state));
    }
    state
}

// Writes the write bytes of a leaf.
fn leaf_bytes_into(part: &PublicPart, leaf: u128, own: &mut [u8])
    requires { length own.old ≡ length (last_of part.now) }
    ensures { own.new ≡ leaf_bytes part.now leaf }
{
    let last = part.last();
    block_into(leaf, own);
    if leaf % 2 == 1 {
        xor_into(own, last);
    }
}

/// XORs the write bytes of a leaf into `out`. Both `out` and `room`, which is written over, are as long as the last
/// correction.
pub fn output_through(part: &PublicPart, leaf: u128, room: &mut [u8], out: &mut [u8])
    requires room { length room.old ≡ length (last_of part.now) }
    requires out { length out.old ≡ length (last_of part.now) }
    ensures { out.new ≡ xor_bytes out.old (leaf_bytes part.now leaf) }
{
    leaf_bytes_into(part, leaf, room);
    xor_into(out, room);
}

/// XORs the write bytes of a leaf into `out`, which is as long as the last correction.
pub fn output_into(part: &PublicPart, leaf: u128, out: &mut [u8])
    requires { length out.old ≡ length (last_of part.now) }
    ensures { out.new ≡ xor_bytes out.old (leaf_bytes part.now leaf) }
{
    let mut bytes = [0u8; 4096];
    output_through(part, leaf, &mut bytes[..part.last().len()], out);
}
