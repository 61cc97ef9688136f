//! Addresses as records have them, in 16 bytes each.
ghost use Rattle.std.specs.Prelude.{◌≡◌, ◌≤◌, ◌+◌, ◌*◌, ◌%◌, ◌<◌, ◌^◌, ◌++◌, ◌∷◌, [], length, take};
ghost use Rattle.std.specs.Int.{w128, to_be_bytes};
ghost use Rattle.std.specs.List.{flat_map};
ghost use Rattle.kept_ledger.specs.Notes.{AreAddresses, address_bytes};
ghost use Rattle.kept_ledger.specs.Written.{written};

use crate::note::MOST_AT_ONCE;

/// So many bytes have the addresses of one name at most.
pub(crate) const ADDRESSES_LEN: usize = 16 * MOST_AT_ONCE;

/// The address of 16 bytes.
#[tactic(auto, using(frame_rules::proofs::Digits::be_back))]
pub(crate) fn address_of(bytes: &[u8]) -> u128
    requires { length bytes.now ≡ 16 }
    ensures spelled { to_be_bytes w128 result ≡ bytes.now }
    ensures fits { result < 2 ^ 128 }
{
    let mut number = [0; 16];
    number.copy_from_slice(bytes);
    u128::from_be_bytes(number)
}

// An address behind so many bytes; then so many stand there.
#[tactic(auto, unfolding(crate::specs::Written::written))]
fn put_address(address: u128, used: usize, room: &mut [u8]) -> usize
    requires { used + 16 ≤ length room.old }
    ensures used { result ≡ used + 16 }
    ensures bytes { take result room.new ≡ take used room.old ++ written address }
{
    room[used..used + 16].copy_from_slice(&address.to_be_bytes());
    used + 16
}

// Addresses to the front of the room, of which so many bytes are theirs then.
fn write_addresses(addresses: &[u128], room: &mut [u8]) -> usize
    requires { 16 * length addresses.now ≤ length room.old }
    ensures within { result ≤ length room.old }
    ensures bytes { take result room.new ≡ flat_map written addresses.now }
{
    let mut used = 0;
    let mut rest = addresses;
    while let [address, behind @ ..] = rest {
        used = put_address(*address, used, room);
        rest = behind;
    }
    used
}

// A number behind so many; then so many stand there.
fn put_number(number: u128, used: usize, room: &mut [u128]) -> usize
    requires { used < length room.old }
    ensures used { result ≡ used + 1 }
    ensures numbers { take result room.new ≡ take used room.old ++ number ∷ [] }
{
    room[used] = number;
    used + 1
}

// The bytes' addresses to the front of the room, of which so many numbers are theirs then.
fn read_addresses(bytes: &[u8], room: &mut [u128]) -> usize
    requires whole { length bytes.now % 16 ≡ 0 }
    requires few { length bytes.now ≤ 16 * length room.old }
    ensures within { result ≤ length room.old }
    ensures spelled { address_bytes (take result room.new) ≡ bytes.now }
    ensures fits { AreAddresses (take result room.new) }
{
    let mut used = 0;
    let mut rest = bytes;
    while rest.len() >= 16 {
        let (front, behind) = rest.split_at(16);
        used = put_number(address_of(front), used, room);
        rest = behind;
    }
    used
}

/// The bytes of addresses.
#[tactic(auto, unfolding(crate::specs::Written::written))]
pub(crate) fn address_bytes<'r>(addresses: &[u128], room: &'r mut [u8; ADDRESSES_LEN]) -> &'r [u8]
    requires { length addresses.now ≤ 64 }
    ensures { result.now ≡ address_bytes addresses.now }
{
    let used = write_addresses(addresses, room.as_mut_slice());
    &room[..used]
}

/// The addresses of bytes.
pub(crate) fn addresses_in<'r>(bytes: &[u8], room: &'r mut [u128; MOST_AT_ONCE]) -> &'r [u128]
    requires whole { length bytes.now % 16 ≡ 0 }
    requires few { length bytes.now ≤ 1024 }
    ensures spelled { address_bytes result.now ≡ bytes.now }
    ensures fits { AreAddresses result.now }
{
    let used = read_addresses(bytes, room.as_mut_slice());
    &room[..used]
}
