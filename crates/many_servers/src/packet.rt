//! Packets of the link between two servers.
ghost use Rattle.std.specs.Prelude.{◌≡◌, ◌+◌, ◌≤◌, ◌∷◌, [], length, take, IfSome};
ghost use Rattle.many_servers.specs.Packets.{carried, leased_in, leased_record, packet, packet_end};

use many_conns::Key;

/// The longest record that a packet carries, in bytes: a tag and a frame.
pub const PACKET_MAX: usize = 8214;

/// How many bytes the record of a lease has that the helper has taken.
pub const LEASED_LEN: usize = 7;

fn end_if(n: usize, held: &[u8]) -> Option<usize>
    ensures { result ≡ Rattle.many_servers.specs.Packets.end_if n held.now }
{
    if n > PACKET_MAX {
        return Some(held.len());
    }
    if 2 + n <= held.len() {
        Some(2 + n)
    } else {
        None
    }
}

/// How many of these bytes are the first packet, if it is whole: a length of 2 bytes, big-endian, and so many bytes. Bytes
/// that begin with a length that no packet has are whole as they are.
pub fn packet_len(held: &[u8]) -> Option<usize>
    ensures exact { result ≡ packet_end held.now }
    ensures within { IfSome result (λ n. n ≤ length held.now) }
{
    let [a, b, ..] = held else {
        return None;
    };
    end_if(usize::from(u16::from_be_bytes([*a, *b])), held)
}

/// The record that a packet carries.
pub fn record_in(bytes: &[u8]) -> &[u8]
    ensures { result.now ≡ carried bytes.now }
{
    match bytes {
        [_, _, rest @ ..] => rest,
        _ => &[],
    }
}

/// Writes a packet to the front of a buffer, and gives its length.
pub fn write_packet(bytes: &[u8], out: &mut [u8]) -> usize
    requires few { length bytes.now ≤ 8214 }
    requires room { 8216 ≤ length out.old }
    ensures written { take result out.new ≡ packet bytes.now }
    ensures within { result ≤ length out.new }
    ensures length { length out.new ≡ length out.old }
{
    let end = 2 + bytes.len();
    let front = (bytes.len() as u16).to_be_bytes();
    out[..2].copy_from_slice(&front);
    out[2..end].copy_from_slice(bytes);
    end
}

/// The record by which a helper tells that it has the lease of a lane and serial: the tag 22, both big-endian.
pub fn leased_record(key: Key) -> [u8; LEASED_LEN]
    ensures { result ≡ leased_record key }
{
    let [l0, l1] = key.lane.to_be_bytes();
    let [s0, s1, s2, s3] = key.serial.to_be_bytes();
    [22, l0, l1, s0, s1, s2, s3]
}

/// The lane and serial of such a record, if it is one.
pub fn leased_in(bytes: &[u8]) -> Option<Key>
    ensures { result ≡ leased_in bytes.now }
{
    let [22, l0, l1, s0, s1, s2, s3] = bytes else {
        return None;
    };
    Some(Key {
        lane: u16::from_be_bytes([*l0, *l1]),
        serial: u32::from_be_bytes([*s0, *s1, *s2, *s3]),
    })
}
