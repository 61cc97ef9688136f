//! How a client is opened, and the record of it.
ghost use Rattle.std.specs.Prelude.{◌≡◌, ◌≤◌, ◌∷◌, [], ◌↔◌, IsTrue, IsNone, IfSome};
ghost use Rattle.std.specs.Int.{w16, w32, to_be_bytes, from_be_bytes};
ghost use Rattle.express_words.specs.Limits.{IsWidth};
ghost use Rattle.client_restart.specs.Openings.{IsClientOpening, opening_record};

use express_words::limits::{LEAST_WIDTH, MOST_WIDTH};

/// How many bytes the record of an opening has.
pub const OPENING_LEN: usize = 47;

/// A client has room for at most so many boxes: as many as there are, and one more that is asked for.
const MOST_CAPACITY: u32 = 4097;

/// How a client is opened: its lane, the width of its messages in bytes, for how many boxes it has room, at
/// most 4,097, its first serial, from 1, and the seed of what it draws.
#[derive(Clone, Copy, Debug, PartialEq, Eq)]
pub struct ClientOpening {
    pub lane: u16,
    pub width: u32,
    pub capacity: u32,
    pub first_serial: u32,
    pub seed: [u8; 32],
}

fn wide(a: u8, b: u8, c: u8, d: u8) -> u32
    ensures number { result ≡ from_be_bytes w32 (a ∷ b ∷ c ∷ d ∷ []) }
    ensures spelled { to_be_bytes w32 result ≡ a ∷ b ∷ c ∷ d ∷ [] }
{
    u32::from_be_bytes([a, b, c, d])
}

fn short(a: u8, b: u8) -> u16
    ensures number { result ≡ from_be_bytes w16 (a ∷ b ∷ []) }
    ensures spelled { to_be_bytes w16 result ≡ a ∷ b ∷ [] }
{
    u16::from_be_bytes([a, b])
}

fn is_opening(width: u32, capacity: u32, first_serial: u32) -> bool
    ensures { IsTrue result ↔ (IsWidth width × ((capacity ≤ 4097) × (1 ≤ first_serial))) }
{
    (LEAST_WIDTH..=MOST_WIDTH).contains(&width)
        && width % 16 == 0
        && capacity <= MOST_CAPACITY
        && first_serial >= 1
}

impl ClientOpening {
    /// The record: the tag 3, lane, width, capacity and first serial, each big-endian, and the seed.
    pub fn record(&self) -> [u8; OPENING_LEN]
        ensures { result ≡ opening_record self.now }
    {
        let [l0, l1] = self.lane.to_be_bytes();
        let [w0, w1, w2, w3] = self.width.to_be_bytes();
        let [c0, c1, c2, c3] = self.capacity.to_be_bytes();
        let [s0, s1, s2, s3] = self.first_serial.to_be_bytes();
        let head = [3, l0, l1, w0, w1, w2, w3, c0, c1, c2, c3, s0, s1, s2, s3];
        let mut bytes = [0; OPENING_LEN];
        bytes[..15].copy_from_slice(&head);
        bytes[15..].copy_from_slice(&self.seed);
        bytes
    }

    /// The opening that a record is, if it is one.
    pub fn of(bytes: &[u8]) -> Option<ClientOpening>
        ensures some { IfSome result IsClientOpening }
        ensures is { IfSome result (λ o. bytes.now ≡ opening_record o) }
        ensures none { IsNone result → (o : ClientOpening) → IsClientOpening o
            → bytes.now ≡ opening_record o → ⊥ }
    {
        let [
            3,
            l0,
            l1,
            w0,
            w1,
            w2,
            w3,
            c0,
            c1,
            c2,
            c3,
            s0,
            s1,
            s2,
            s3,
            seed @ ..,
        ] = bytes
        else {
            return None;
        };
        let width = wide(*w0, *w1, *w2, *w3);
        let capacity = wide(*c0, *c1, *c2, *c3);
        let first_serial = wide(*s0, *s1, *s2, *s3);
        if !is_opening(width, capacity, first_serial) || seed.len() != 32 {
            return None;
        }
        let lane = short(*l0, *l1);
        let mut key = [0; 32];
        key.copy_from_slice(seed);
        Some(ClientOpening {
            lane,
            width,
            capacity,
            first_serial,
            seed: key,
        })
    }
}
