//! What a box holds.
ghost use Rattle.std.specs.Prelude.{◌≡◌, ◌-◌, ◌<◌, ◌≤◌, length, drop, IsTrue};
ghost use Rattle.file_carry.specs.Boxes.{id_in, index_in, count_in, used_in, is_zeros, is_use, is_part};

use crate::cutting::HEADER;

/// The id of the file whose part this is: bytes 0 to 7, big-endian.
pub fn id_in(bytes: &[u8]) -> u64
    requires { 16 ≤ length bytes.now }
    ensures { result ≡ id_in bytes.now }
{
    let mut number = [0; 8];
    number.copy_from_slice(&bytes[..8]);
    u64::from_be_bytes(number)
}

fn index_in(bytes: &[u8]) -> u16
    requires { 16 ≤ length bytes.now }
    ensures { result ≡ index_in bytes.now }
{
    u16::from_be_bytes([bytes[8], bytes[9]])
}

/// How many parts the file has: bytes 10 and 11, big-endian.
pub fn count_in(bytes: &[u8]) -> u16
    requires { 16 ≤ length bytes.now }
    ensures { result ≡ count_in bytes.now }
{
    u16::from_be_bytes([bytes[10], bytes[11]])
}

/// How many bytes of the file stand behind the header: bytes 12 and 13, big-endian.
pub fn used_in(bytes: &[u8]) -> u16
    requires { 16 ≤ length bytes.now }
    ensures { result ≡ used_in bytes.now }
{
    u16::from_be_bytes([bytes[12], bytes[13]])
}

fn is_zeros(bytes: &[u8]) -> bool
    ensures { result ≡ is_zeros bytes.now }
{
    bytes.iter().all(|b| *b == 0)
}

fn is_use(room: usize, index: u32, count: u16, used: u16) -> bool
    requires { index < count }
    ensures { result ≡ is_use room index count used }
{
    if index + 1 == u32::from(count) {
        usize::from(used) <= room && (1 <= used || index == 0)
    } else {
        usize::from(used) == room
    }
}

/// Whether a box has the part of this id, index and count.
#[tactic(auto, using(crate::proofs::RowLaws::part_fits), unfolding(crate::specs::Boxes::is_part))]
pub fn is_part(id: u64, count: u16, index: u32, bytes: &[u8]) -> bool
    requires { 32 ≤ length bytes.now }
    ensures is { result ≡ is_part id count index bytes.now }
    ensures fits { IsTrue result → used_in bytes.now ≤ length bytes.now - 16 }
{
    index < u32::from(count)
        && id_in(bytes) == id
        && u32::from(index_in(bytes)) == index
        && count_in(bytes) == count
        && is_use(bytes.len() - HEADER, index, count, used_in(bytes))
        && is_zeros(&bytes[14..HEADER])
        && is_rest_zero(bytes)
}

// Whether all behind the used bytes is zero.
#[tactic(auto, using(std::proofs::lemmas::List::drop_min))]
fn is_rest_zero(bytes: &[u8]) -> bool
    requires { 16 ≤ length bytes.now }
    ensures { result ≡ is_zeros (drop (used_in bytes.now) (drop 16 bytes.now)) }
{
    let rest = &bytes[HEADER..];
    let used = usize::from(used_in(bytes)).min(rest.len());
    is_zeros(&rest[used..])
}
