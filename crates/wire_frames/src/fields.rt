//! Numbers at their places, and the parts of a body.
ghost use Rattle.std.specs.Prelude.{◌≡◌, ◌+◌, ◌*◌, ◌<◌, ◌≤◌, length, OnOk, IfOk};
ghost use Rattle.std.specs.Int.{w8, w16, w32, w64, w128, from_be_bytes};
ghost use Rattle.frame_rules.specs.Forms.{Gives, number_at, first_of, word_in, sized, Exactly, Wide};

use frame_rules::FrameFault;

/// The byte at a place, once it has come.
#[tactic(auto, unfolding(frame_rules::specs::Forms::number_at))]
pub fn u8_at(bytes: &[u8], place: usize) -> Result<u8, FrameFault>
    requires { place < 256 }
    ensures { Gives (λ n. n) result (number_at w8 place bytes.now) }
{
    if bytes.len() < place + 1 {
        return Err(FrameFault::Short);
    }
    Ok(bytes[place])
}

/// The big-endian number at a place, once its bytes have come.
#[tactic(auto, unfolding(frame_rules::specs::Forms::number_at))]
pub fn u16_at(bytes: &[u8], place: usize) -> Result<u16, FrameFault>
    requires { place < 256 }
    ensures { Gives (λ n. n) result (number_at w16 place bytes.now) }
{
    if bytes.len() < place + 2 {
        return Err(FrameFault::Short);
    }
    Ok(u16_of(&bytes[place..place + 2]))
}

/// The big-endian number at a place, once its bytes have come.
#[tactic(auto, unfolding(frame_rules::specs::Forms::number_at))]
pub fn u32_at(bytes: &[u8], place: usize) -> Result<u32, FrameFault>
    requires { place < 256 }
    ensures { Gives (λ n. n) result (number_at w32 place bytes.now) }
{
    if bytes.len() < place + 4 {
        return Err(FrameFault::Short);
    }
    Ok(u32_of(&bytes[place..place + 4]))
}

/// The big-endian number at a place, once its bytes have come.
#[tactic(auto, unfolding(frame_rules::specs::Forms::number_at))]
pub fn u64_at(bytes: &[u8], place: usize) -> Result<u64, FrameFault>
    requires { place < 256 }
    ensures given { Gives (λ n. n) result (number_at w64 place bytes.now) }
    ensures whole { OnOk result (place + 8 ≤ length bytes.now) }
{
    if bytes.len() < place + 8 {
        return Err(FrameFault::Short);
    }
    Ok(u64_of(&bytes[place..place + 8]))
}

/// One byte.
pub fn u8_of(bytes: &[u8]) -> u8
    requires { length bytes.now ≡ 1 }
    ensures { result ≡ from_be_bytes w8 bytes.now }
{
    bytes[0]
}

/// Two bytes, big-endian.
pub fn u16_of(bytes: &[u8]) -> u16
    requires { length bytes.now ≡ 2 }
    ensures { result ≡ from_be_bytes w16 bytes.now }
{
    u16::from_be_bytes([bytes[0], bytes[1]])
}

/// Four bytes, big-endian.
pub fn u32_of(bytes: &[u8]) -> u32
    requires { length bytes.now ≡ 4 }
    ensures { result ≡ from_be_bytes w32 bytes.now }
{
    u32::from_be_bytes([bytes[0], bytes[1], bytes[2], bytes[3]])
}

/// Eight bytes, big-endian.
pub fn u64_of(bytes: &[u8]) -> u64
    requires { length bytes.now ≡ 8 }
    ensures { result ≡ from_be_bytes w64 bytes.now }
{
    let mut number = [0; 8];
    number.copy_from_slice(bytes);
    u64::from_be_bytes(number)
}

/// An address, which is big-endian.
pub fn address_of(bytes: &[u8]) -> u128
    requires { length bytes.now ≡ 16 }
    ensures { result ≡ from_be_bytes w128 bytes.now }
{
    let mut number = [0; 16];
    number.copy_from_slice(bytes);
    u128::from_be_bytes(number)
}

/// A word, which is little-endian.
#[tactic(auto, unfolding(frame_rules::specs::Forms::word_in))]
pub fn word_in(bytes: &[u8]) -> u128
    requires { length bytes.now ≡ 16 }
    ensures { result ≡ word_in bytes.now }
{
    let mut number = [0; 16];
    number.copy_from_slice(bytes);
    u128::from_le_bytes(number)
}

/// A key, as its bytes are.
pub fn key_of(bytes: &[u8]) -> [u8; 32]
    requires { length bytes.now ≡ 32 }
    ensures { result ≡ bytes.now }
{
    let mut key = [0; 32];
    key.copy_from_slice(bytes);
    key
}

/// The first byte, and those after it.
pub fn first_of(bytes: &[u8]) -> Result<(u8, &[u8]), FrameFault>
    ensures { Gives (λ x. (x.0, x.1.now)) result (first_of bytes.now) }
{
    match bytes {
        [] => Err(FrameFault::Short),
        [first, rest @ ..] => Ok((*first, rest)),
    }
}

/// The `left` bytes that the length leaves, which are to be exactly `count`.
#[tactic(auto, unfolding(frame_rules::specs::Forms::sized))]
pub fn exactly(count: usize, left: usize, rest: &[u8]) -> Result<&[u8], FrameFault>
    ensures given { Gives (λ x. x.now) result (sized (Exactly count) left rest.now) }
    ensures whole { IfOk result (λ x. length x.now ≡ count) }
{
    if left != count {
        return Err(FrameFault::Malformed(0));
    }
    if rest.len() < left {
        return Err(FrameFault::Short);
    }
    Ok(&rest[..left])
}

/// The `left` bytes that the length leaves, which are to be `base` and `copies` of a message's width.
#[tactic(auto, unfolding(frame_rules::specs::Forms::sized))]
pub fn wide(base: usize, copies: usize, left: usize, rest: &[u8]) -> Result<&[u8], FrameFault>
    requires base { base ≤ 4096 }
    requires least { 1 ≤ copies }
    requires most { copies ≤ 2 }
    ensures given { Gives (λ x. x.now) result (sized (Wide base copies) left rest.now) }
    ensures whole { IfOk result (λ x. base + 16 * copies ≤ length x.now) }
{
    let least = base + 16 * copies;
    let most = base + 4096 * copies;
    if !(least <= left && left <= most && (left - base) % (16 * copies) == 0) {
        return Err(FrameFault::Malformed(0));
    }
    if rest.len() < left {
        return Err(FrameFault::Short);
    }
    Ok(&rest[..left])
}
