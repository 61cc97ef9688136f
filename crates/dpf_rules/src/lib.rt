//! The definitions of the expansion and of the point function, and the code on bytes that the crates above
//! share.
#![tactic(auto)]

mod laws;

ghost use Rattle.std.specs.Prelude.{◌≡◌, length};
ghost use Rattle.express_words.specs.Bytes.{xor_bytes};
ghost use Rattle.dpf_rules.specs.Bytes.{number_of, bytes_of};

pub use laws::{
    equal_leaves_keep_boxes, honest_lists_give_honest_keys, ideal_walks, states_are_in_range,
};

/// The number that 16 bytes spell, the lowest byte first.
pub fn read_number(bytes: &[u8]) -> u128
    requires { length bytes.now ≡ 16 }
    ensures { result ≡ number_of bytes.now }
{
    let mut word = [0u8; 16];
    word.copy_from_slice(bytes);
    u128::from_le_bytes(word)
}

/// Writes a number as 16 bytes, the lowest byte first.
pub fn write_number(out: &mut [u8], number: u128)
    requires { length out.old ≡ 16 }
    ensures { out.new ≡ bytes_of 16 number }
{
    out.copy_from_slice(&number.to_le_bytes());
}

/// XORs bytes into as many others.
pub fn xor_into(out: &mut [u8], with: &[u8])
    requires { length out.old ≡ length with.now }
    ensures { out.new ≡ xor_bytes out.old with.now }
{
    for i in 0..out.len() {
        out[i] ^= with[i];
    }
}
